// The stations of the segment that a script describes.
ghost use Rattle.std.specs.Prelude.{◌≡◌, get_or, replicate};
ghost use Rattle.stations.specs.List.{nowhere};

use station::making::new_station;
use station::station::Station;

// No station is there.
pub fn no_stations() -> [Station; 16]
    ensures { result ≡ replicate 16 nowhere }
{
    [new_station(0, 0, 0, false, 0, &[0u8; 4]).station; 16]
}

// How long the latest advertisement frame of a station is; past the end nothing was sent.
pub fn sent_by(stations: &[Station; 16], at: usize) -> usize
    ensures { result ≡ (get_or stations.now at nowhere).sent }
{
    match stations.get(at) {
        Some(station) => station.sent,
        None => 0,
    }
}
