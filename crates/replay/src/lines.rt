// The line of a call: how it ended, its room, and the router and the interface, all as they are after it.
use events::answer::Done;
use records::page::Page;
use states::record::Router;
use table::calls::{interface_count, question};
use wire::refusal::Refusal;

// Puts the state, the remaining timer and the counts of a router.
fn put_router(page: &mut Page, router: Router) {
    page.byte(router.state.letter());
    let counts = router.counts;
    page.next(router.timer);
    page.next(counts.accepted);
    page.next(counts.became);
    page.next(counts.owner);
    page.next(counts.authentication);
    page.next(counts.list);
    page.next(counts.interval);
}

pub fn line_of(
    answer: Result<Done, Refusal>,
    room: &[u8],
    vrid: Option<u8>,
    words: &[u32; 4096],
) -> Page {
    let mut page = Page::new();
    page.outcome(answer);
    page.next(answer.map_or(0, |done| done.leftover));
    page.byte(b' ');
    page.hex(room);
    page.byte(b' ');
    let shown = match vrid {
        Some(vrid) => question(words, vrid).ok(),
        None => None,
    };
    match shown {
        Some(router) => put_router(&mut page, router),
        None => page.byte(b'-'),
    }
    for number in 1..=9 {
        page.next(interface_count(words, number));
    }
    page.byte(b'\n');
    page
}
