// The lines of an accepted packet.
use judging::Fields;
use records::page::Page;

// Puts a line that names a number.
fn put_named(page: &mut Page, name: &[u8], number: u8) {
    page.text(name);
    page.number(number);
    page.byte(b'\n');
}

// What an accepted packet announces.
pub fn announced(packet: &[u8], fields: Fields) -> Page {
    let mut page = Page::new();
    page.text(b"accepted\nsource address ");
    page.address(fields.source);
    page.byte(b'\n');
    put_named(&mut page, b"VRID ", fields.vrid);
    put_named(&mut page, b"priority ", fields.priority);
    put_named(&mut page, b"address count ", fields.count);
    put_named(&mut page, b"authentication type ", fields.authentication);
    put_named(&mut page, b"interval ", fields.interval);
    page.text(b"addresses");
    let list = packet.get(fields.list..).unwrap_or(&[]);
    let (addresses, _) = list.as_chunks();
    for address in addresses.iter().take(usize::from(fields.count)) {
        page.byte(b' ');
        page.address(u32::from_be_bytes(*address));
    }
    page.byte(b'\n');
    page
}
