//! A server that echoes calls of a fixed length over links. The two words are the port of 127.0.0.1 and the number of
//! sessions, which it serves one after the other.
#![tactic(auto)]

ghost use Rattle.std.specs.Prelude.{◌≡◌, ◌<◌, true, length, vec_len, IfOk};

use ig_base::NoMemory;
use ig_link::{Door, Link, Opened, Take, TcpDoor, send_all};
use std::alloc::Global;
use std::{env, io};

/// How many bytes a call has; the reply is the same bytes.
const CALL: usize = 32;

/// How many bytes a read takes at most.
const PIECE: usize = 64 * 1024;

/// Writes what comes back, call by call, until the link ends or fails. Returns whether it ended.
fn echo<L: Link>(link: &mut L, buf: &mut [u8]) -> bool
    requires { 0 < length buf.old }
    ensures { result ≡ true → (L.source link.new).ended ≡ true }
{
    for _ in 0..u64::MAX {
        match link.read(buf) {
            Take::Bytes(n) => {
                for call in buf[..n].chunks(CALL) {
                    if send_all(link, call).is_err() {
                        return false;
                    }
                }
            }
            Take::End => return true,
            Take::Failed => return false,
        }
    }
    false
}

/// Echoes over each link that the door opens, one after the other, until it ends or fails. Returns how many
/// links ended.
fn serve<D: Door>(door: &mut D, buf: &mut [u8]) -> u64
    requires { 0 < length buf.old }
{
    let mut ended = 0u64;
    for _ in 0..u64::MAX {
        match door.accept() {
            Opened::Link(mut link) => {
                if echo(&mut link, buf) {
                    ended = ended.saturating_add(1);
                }
                let _ = link.retire();
            }
            Opened::End | Opened::Failed => return ended,
        }
    }
    ended
}

/// Room for what a read takes.
fn piece(alloc: Global) -> Result<Vec<u8>, NoMemory>
    ensures { IfOk result (λ piece. 0 < vec_len piece) }
{
    Ok(vec![in alloc; 0u8; PIECE]?)
}

/// The number that a word says, or 0.
fn number(words: &[String], place: usize) -> u64 {
    match words.get(place) {
        Some(word) => word.as_str().parse().unwrap_or(0),
        None => 0,
    }
}

fn main(rt: HostRuntime) -> io::Result<()> {
    let mut words = Vec::new(rt.alloc());
    for word in env::args(&rt)? {
        words.push(word)?;
    }
    let port = u16::try_from(number(words.as_slice(), 1)).unwrap_or(0);
    let sessions = number(words.as_slice(), 2);
    let Ok(mut buf) = piece(rt.alloc()) else {
        return Ok(());
    };
    let mut door = TcpDoor::on(rt, rt.alloc(), port, sessions);
    let ended = serve(&mut door, buf.as_mut_slice());
    println!(rt; "{ended} of {sessions} sessions ended")?;
    Ok(())
}
