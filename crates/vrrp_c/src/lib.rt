// The three calls for C (include/vrrp.h): thin over `judging` and `writing`, answering 0 or the refusal's number alone.
#![tactic(auto)]

ghost use Rattle.std.specs.Prelude.{◌≡◌};
ghost use Rattle.judging.specs.Judging.{refusal_of};
ghost use Rattle.vrrp_c.specs.Answer.{AdvertisementAnswered, ArpAnswered};

use judging::judge;
use wire::refusal::number_of;
use writing::arp::write_arp;
use writing::frame::write_advertisement;

// Judges a packet: 0, or the first of refusals 1 to 8.
#[tactic(auto, using(judging::proofs::Passing::number_judged))]
#[unsafe(no_mangle)]
pub extern "C" fn vrrp_judge(packet: &[u8]) -> u32
    ensures { result ≡ refusal_of packet.now }
{
    number_of(judge(packet))
}

// Writes an advertisement frame: 0, or the first of refusals 14, 16, 17 and 22 with `out` as it was.
#[unsafe(no_mangle)]
pub extern "C" fn vrrp_write_advertisement(
    vrid: u8,
    priority: u8,
    interval: u8,
    primary: u32,
    addresses: &[u8],
    out: &mut [u8],
) -> u32
    ensures { AdvertisementAnswered vrid priority interval primary addresses.now out.old
        result out.new }
{
    number_of(write_advertisement(vrid, priority, interval, primary, addresses, out))
}

// Writes a gratuitous ARP frame: 0, or the first of refusals 14 and 22 with `out` as it was.
#[unsafe(no_mangle)]
pub extern "C" fn vrrp_write_arp(vrid: u8, address: u32, out: &mut [u8]) -> u32
    ensures { ArpAnswered vrid address out.old result out.new }
{
    number_of(write_arp(vrid, address, out))
}
