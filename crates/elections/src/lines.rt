// The line of an election: a letter per station before and after, and who remains.
use records::page::Page;
use states::record::State;
use station::station::Station;

pub fn put_letters(page: &mut Page, stations: &[Station]) {
    for station in stations {
        page.byte(station.router.state.letter());
    }
}

fn is_master(station: &Station) -> bool {
    station.router.state == State::Master
}

// Puts the number of the one Master, or a dash where there is none or there are several.
pub fn put_master(page: &mut Page, stations: &[Station]) {
    match stations.iter().position(is_master) {
        Some(first) if stations.iter().rposition(is_master) == Some(first) => {
            page.number(first as u64);
        }
        _ => page.byte(b'-'),
    }
}
