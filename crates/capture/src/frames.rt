//! The bytes of a packet: a segment of TCP in IPv4 on Ethernet, or a frame as it is.
ghost use Rattle.std.specs.Prelude.{◌≡◌, ◌<◌, ◌≤◌, ◌+◌, ◌*◌, ◌++◌, ◌^◌, true, length, IfOk, OnOk};
ghost use Rattle.capture_laws.specs.Frames as frames;

use capture_laws::Way;
use journal::Actor;
use of_bytes::{Front, four, long_length, six, two};
use of_types::Octets;
use std::alloc::{AllocError, Global};

/// What the head of a segment tells.
#[derive(Clone, Copy)]
struct Head {
    from: Actor,
    to: Actor,
    sequence: u32,
    acknowledged: u32,
    ends: bool,
}

/// The port of OpenFlow.
const OPENFLOW: u16 = 6653;

/// The port of controllers for each other.
const MEMBERS: u16 = 49_690;

/// The first port that nobody listens at.
const FIRST_FREE: u16 = 49_152;

/// The address before that of controller 0.
const CONTROLLERS: u32 = 0xC000_0200;

/// The address before that of switch 0.
const SWITCHES: u32 = 0xC633_6400;

/// The address on Ethernet before that of controller 0.
const CONTROLLER_CARDS: u64 = 0x0200_0000_6300;

/// The address on Ethernet before that of switch 0.
const SWITCH_CARDS: u64 = 0x0200_0000_7300;

/// The type of IPv4 in Ethernet.
const IPV4: u16 = 0x0800;

/// The version of IPv4 with the length of its head, and no wish.
const VERSION: u16 = 0x4500;

/// That a packet isn't in fragments.
const WHOLE: u16 = 0x4000;

/// The time to live, and TCP.
const LIFE_AND_TCP: u16 = 0x4006;

/// The number of TCP.
const TCP: u16 = 6;

/// The bytes of both heads.
const HEADS: usize = 40;

/// The bytes of the head of TCP.
const TCP_HEAD: usize = 20;

/// The bytes of it before its checksum.
const TCP_FRONT: usize = 16;

/// The bytes of the head of IPv4 before its checksum.
const IP_FRONT: usize = 10;

/// The bytes of the addresses behind it.
const ENDS: usize = 8;

/// The bytes that TCP sums beside a segment.
const PSEUDO: usize = 12;

/// The bytes of the head of Ethernet.
const ETHERNET_HEAD: usize = 14;

/// The length of the head of TCP, with ACK.
const ACK: u16 = 0x5010;

/// The same with PSH, where a letter ends.
const PSH_ACK: u16 = 0x5018;

/// How many bytes an end would take.
const WINDOW: u16 = 65_535;

/// The bytes of a packet.
#[tactic(auto, unfolding(capture_laws::specs::Frames::frame_of))]
pub fn frame_of(alloc: Global, way: Way, payload: &[u8]) -> Result<Octets, AllocError>
    ensures { IfOk result (λ frame. frame ≡ frames.frame_of way payload.now) }
{
    match way {
        Way::Frame(_) => Octets::from_slice(alloc, payload),
        Way::Segment {
            from,
            to,
            sequence,
            acknowledged,
            ends,
        } => {
            let head = Head {
                from,
                to,
                sequence,
                acknowledged,
                ends,
            };
            let mut frame = Octets::new(alloc);
            write_ethernet(&mut frame, from, to)?;
            write_ip(&mut frame, from, to, payload.len())?;
            write_tcp(&mut frame, head, payload)?;
            Ok(frame)
        }
    }
}

#[tactic(auto, unfolding(capture_laws::specs::Frames::ethernet))]
fn write_ethernet(out: &mut Octets, from: Actor, to: Actor) -> Result<(), AllocError>
    ensures { OnOk result (out.new ≡ out.old ++ frames.ethernet from to) }
{
    let mut head = Front::<ETHERNET_HEAD>::new();
    head.put(six(mac(to)));
    head.put(six(mac(from)));
    head.put(two(IPV4));
    out.append(head.as_slice())
}

#[tactic(auto, unfolding(capture_laws::specs::Frames::ip_head))]
fn write_ip(out: &mut Octets, from: Actor, to: Actor, count: usize) -> Result<(), AllocError>
    requires { count < 2 ^ 63 }
    ensures { OnOk result (out.new ≡ out.old ++ frames.ip_head from to count) }
{
    let front = ip_front(count);
    let ends = ends_of(from, to);
    let sum = word_sum(front.as_slice()) + word_sum(ends.as_slice());
    out.append(front.as_slice())?;
    out.append(&two(checksum(sum)))?;
    out.append(ends.as_slice())
}

#[tactic(auto, unfolding(capture_laws::specs::Frames::tcp))]
fn write_tcp(out: &mut Octets, head: Head, payload: &[u8]) -> Result<(), AllocError>
    ensures { OnOk result (out.new ≡ out.old ++ frames.tcp head.from head.to head.sequence head.acknowledged head.ends payload.now) }
{
    let front = tcp_front(head);
    let pseudo = pseudo(head.from, head.to, payload.len());
    let sum = word_sum(pseudo.as_slice()) + word_sum(front.as_slice()) + word_sum(payload);
    out.append(front.as_slice())?;
    out.append(&two(checksum(sum)))?;
    out.append(&two(0))?;
    out.append(payload)
}

#[tactic(auto, unfolding(capture_laws::specs::Frames::tcp_front))]
fn tcp_front(head: Head) -> Front<TCP_FRONT>
    ensures front { result ≡ frames.tcp_front head.from head.to head.sequence head.acknowledged head.ends }
    ensures len { length result ≤ 20 }
{
    let mut front = Front::new();
    front.put(two(port(head.from, head.to)));
    front.put(two(port(head.to, head.from)));
    front.put(four(head.sequence));
    front.put(four(head.acknowledged));
    front.put(two(if head.ends { PSH_ACK } else { ACK }));
    front.put(two(WINDOW));
    front
}

#[tactic(auto, unfolding(capture_laws::specs::Frames::ip_front))]
fn ip_front(count: usize) -> Front<IP_FRONT>
    requires { count < 2 ^ 63 }
    ensures front { result ≡ frames.ip_front count }
    ensures len { length result ≤ 20 }
{
    let mut front = Front::new();
    front.put(two(VERSION));
    front.put(long_length(HEADS + count));
    front.put(two(0));
    front.put(two(WHOLE));
    front.put(two(LIFE_AND_TCP));
    front
}

/// What TCP sums beside a segment.
#[tactic(auto, unfolding(capture_laws::specs::Frames::pseudo, capture_laws::specs::Frames::frame_ends_of))]
fn pseudo(from: Actor, to: Actor, count: usize) -> Front<PSEUDO>
    requires { count < 2 ^ 63 }
    ensures front { result ≡ frames.pseudo from to count }
    ensures len { length result ≤ 20 }
{
    let mut pseudo = Front::new();
    pseudo.put(four(ip(from)));
    pseudo.put(four(ip(to)));
    pseudo.put(two(TCP));
    pseudo.put(long_length(TCP_HEAD + count));
    pseudo
}

#[tactic(auto, unfolding(capture_laws::specs::Frames::frame_ends_of))]
fn ends_of(from: Actor, to: Actor) -> Front<ENDS>
    ensures front { result ≡ frames.frame_ends_of from to }
    ensures len { length result ≤ 20 }
{
    let mut ends = Front::new();
    ends.put(four(ip(from)));
    ends.put(four(ip(to)));
    ends
}

/// The port of the first actor on its stream with the second.
fn port(from: Actor, to: Actor) -> u16
    ensures { result ≡ frames.port from to }
{
    match (from, to) {
        (Actor::Controller(_), Actor::Switch(_)) => OPENFLOW,
        (Actor::Switch(_), Actor::Controller(d)) => FIRST_FREE + u16::from(d),
        (Actor::Switch(_), Actor::Switch(_)) => 0,
        (Actor::Controller(c), Actor::Controller(d)) => {
            if c < d {
                MEMBERS
            } else {
                FIRST_FREE + u16::from(d)
            }
        }
    }
}

/// The IPv4 address of an actor.
fn ip(actor: Actor) -> u32
    ensures { result ≡ frames.ip actor }
{
    match actor {
        Actor::Controller(c) => CONTROLLERS + (u32::from(c) + 1) % 256,
        Actor::Switch(s) => SWITCHES + (u32::from(s) + 1) % 256,
    }
}

fn mac(actor: Actor) -> u64
    ensures { result ≡ frames.mac actor }
{
    match actor {
        Actor::Controller(c) => CONTROLLER_CARDS + (u64::from(c) + 1) % 256,
        Actor::Switch(s) => SWITCH_CARDS + (u64::from(s) + 1) % 256,
    }
}

/// The checksum of words with a sum that is not 0.
fn checksum(sum: u128) -> u16
    ensures { result ≡ frames.checksum sum }
{
    (65_534 - sum.saturating_sub(1) % 65_535) as u16
}

/// The sum of the words of two bytes.
fn word_sum(bytes: &[u8]) -> u128
    ensures exact { result ≡ frames.word_sum true bytes.now }
    ensures most { result ≤ 65280 * length bytes.now }
{
    let mut sum = 0u128;
    let mut is_high = true;
    'bytes: for byte in bytes {
        sum += if is_high {
            256 * u128::from(*byte)
        } else {
            u128::from(*byte)
        };
        is_high = !is_high;
    }
    sum
}
