// The stations of a record, as far as each has come, and the deliveries among them. A bad record is read to its end all the same.
use records::reading::{Fault, flag_of, read_head};
use station::making::new_station;
use station::station::Station;
use stations::list::{clock, deliver, startup};
use std::io::Read;

// How far a station has come.
#[derive(Clone, Copy, PartialEq, Eq)]
enum Come {
    Made,
    StartedUp,
    // started up and taken through a clock step
    Clocked,
}

impl TryFrom<u8> for Come {
    type Error = Fault;

    fn try_from(number: u8) -> Result<Come, Fault> {
        match number {
            0 => Ok(Come::Made),
            1 => Ok(Come::StartedUp),
            2 => Ok(Come::Clocked),
            _ => Err(Fault::BadRecord),
        }
    }
}

// The station that has virtual router 1, an interval of one second and the virtual address 192.168.1.254, and how far it has come.
fn station_of(priority: u8, preempt: u8, primary: u32, come: u8) -> Result<(Station, Come), Fault> {
    if priority == 0 {
        return Err(Fault::BadRecord);
    }
    let preempt = flag_of(preempt)?;
    let made = new_station(1, priority, 1, preempt, primary, &[192, 168, 1, 254]);
    Ok((made.station, Come::try_from(come)?))
}

// Reads a station: priority, preempt, primary address, and how far it has come. It is none where one of them is out of range.
fn read_station<R: Read>(input: &mut R) -> Result<Option<(Station, Come)>, Fault> {
    let [priority, preempt, a, b, c, d, come] = read_head::<R, 7>(input)?;
    let primary = u32::from_be_bytes([a, b, c, d]);
    Ok(station_of(priority, preempt, primary, come).ok())
}

// Takes a station as far as it has come.
fn bring(stations: &mut [Station], at: usize, come: Come) {
    let mut room = [0; 786];
    if come != Come::Made {
        let _ = startup(stations, at, &mut room);
    }
    if come == Come::Clocked {
        let _ = clock(stations, at, 2000, &mut room);
    }
}

// Reads all of the stations, and answers whether each is good.
pub fn read_stations<R: Read>(stations: &mut [Station], input: &mut R) -> Result<bool, Fault> {
    let mut good = true;
    for at in 0..stations.len() {
        match read_station(input)? {
            Some((station, come)) => {
                stations[at] = station;
                bring(stations, at, come);
            }
            None => good = false,
        }
    }
    Ok(good)
}

// Reads the deliveries, from and to, and hands each advertisement over as it comes; answers whether each is among the stations.
pub fn hand_over<R: Read>(stations: &mut [Station], input: &mut R) -> Result<bool, Fault> {
    let mut room = [0; 786];
    let mut good = true;
    let deliveries = u16::from_be_bytes(read_head(input)?);
    for _ in 0..deliveries {
        let [from, to] = read_head::<R, 2>(input)?;
        let from = usize::from(from);
        let to = usize::from(to);
        good = good && from < stations.len() && to < stations.len();
        let _ = deliver(stations, from, to, &mut room);
    }
    Ok(good)
}
