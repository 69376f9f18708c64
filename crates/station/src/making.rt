// A station just configured.
ghost use Rattle.std.specs.Prelude.{◌≡◌};
ghost use Rattle.station.specs.Station.{station_of};
ghost use Rattle.station.specs.Making.{Makes, addresses_in, made_of};

use crate::station::{Station, Stepped};
use configuring::{Settings, new_router, settings_refusal};
use events::answer::Done;
use states::record::Router;
use writing::addresses::Addresses;

// A station that has counted and sent nothing.
fn station_of(primary: u32, router: Router, addresses: [u8; 64]) -> Station
    ensures { result ≡ station_of primary router addresses }
{
    Station {
        primary,
        router,
        refusals: [0; 9],
        addresses,
        frame: [0; 114],
        sent: 0,
    }
}

// The virtual addresses in a station's 64 bytes.
fn addresses_in(list: Addresses) -> [u8; 64]
    ensures { result ≡ addresses_in list.entry.bytes.now }
{
    let mut own = [0; 64];
    own[..list.bytes.len()].copy_from_slice(list.bytes);
    own
}

// A station with one virtual router in Initialize; refuses by 14 to 17, and then no router is there.
pub fn new_station(
    vrid: u8,
    priority: u8,
    interval: u8,
    preempt: bool,
    primary: u32,
    addresses: &[u8],
) -> Stepped
    ensures { Makes (made_of vrid priority interval preempt primary addresses.now) result }
{
    let settings = Settings {
        vrid,
        priority,
        interval,
        preempt,
    };
    match settings_refusal(settings, addresses) {
        Ok(list) => {
            let fresh = new_router(vrid, priority, interval, preempt, list.count());
            Stepped {
                station: station_of(primary, fresh, addresses_in(list)),
                answer: Ok(Done {
                    written: 0,
                    leftover: 0,
                }),
            }
        }
        Err(refusal) => {
            let none = new_router(0, 0, 0, false, 0);
            Stepped {
                station: station_of(primary, none, [0; 64]),
                answer: Err(refusal),
            }
        }
    }
}
