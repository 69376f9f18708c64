// The line of each answer.
use crate::case::Case;
use judging::{Fields, judge};
use records::page::Page;
use records::reading::fresh_room;
use wire::refusal::Refusal;
use writing::arp::write_arp;
use writing::frame::write_advertisement;

// Puts what an accepted packet says: its source address, the VRID, the priority, the address count, the authentication type
// and the interval, and where its address list stands.
fn put_fields(page: &mut Page, fields: Fields) {
    page.text(b"0 ");
    page.address(fields.source);
    page.next(fields.vrid);
    page.next(fields.priority);
    page.next(fields.count);
    page.next(fields.authentication);
    page.next(fields.interval);
    page.next(fields.list as u64);
}

// Puts what a packet is found to be.
fn put_judged(page: &mut Page, packet: &[u8]) {
    match judge(packet) {
        Ok(fields) => put_fields(page, fields),
        Err(refusal) => page.number(refusal.number()),
    }
}

// Puts how a writing ended, and its room.
fn put_written(page: &mut Page, written: Result<usize, Refusal>, room: &[u8]) {
    page.outcome(written);
    page.byte(b' ');
    page.hex(room);
}

// The line of a case.
pub fn answered(case: Case) -> Page {
    let mut page = Page::new();
    match case {
        Case::Judge { packet } => put_judged(&mut page, packet),
        Case::Advertisement {
            vrid,
            priority,
            interval,
            primary,
            room,
            addresses,
        } => {
            let mut bytes = fresh_room();
            let out = &mut bytes[..room.size];
            let written = write_advertisement(vrid, priority, interval, primary, addresses, out);
            put_written(&mut page, written, out);
        }
        Case::Arp {
            vrid,
            address,
            room,
        } => {
            let mut bytes = fresh_room();
            let out = &mut bytes[..room.size];
            let written = write_arp(vrid, address, out);
            put_written(&mut page, written, out);
        }
    }
    page.byte(b'\n');
    page
}
