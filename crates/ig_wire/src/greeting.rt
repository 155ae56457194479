//! Reads hellos.

ghost use Rattle.std.specs.Prelude.{◌≡◌, ◌≤◌, ◌+◌, length, if◌then◌else◌};
ghost use Rattle.ig_wire.specs.Greets.{greeting as greeting_of, version_at as version_read, tail_of};
ghost use Rattle.ig_wire.specs.FieldAnswers.{FieldAnswers};

use crate::fields::nullable_string_end;
use crate::hello::{Hello, HelloFault};
use crate::stop::Stop;
use crate::version::Version;
use ig_base::get_i16;

/// The first byte of a hello.
pub const HELLO: u8 = 1;

/// The client code of a thin client.
pub const THIN_CLIENT: u8 = 2;

/// The least length of a hello's body: its first byte, the version and the client code.
pub const LEAST_HELLO: u32 = 8;

/// Reads a hello, as a server whose highest version is this one. Takes no memory.
pub fn read_hello(body: &[u8], highest: Version) -> Result<Hello, HelloFault>
    requires { 8 ≤ length body.now }
    ensures { result ≡ greeting_of highest body.now }
{
    if body[0] != HELLO {
        return Err(HelloFault::NotHello(body[0]));
    }
    let version = version_at(body, 1);
    if !version.is_accepted(highest) {
        return Err(HelloFault::Version(version));
    }
    if body[7] != THIN_CLIENT {
        return Err(HelloFault::ClientCode(body[7]));
    }
    match tail_login(version, &body[8..]) {
        Ok(credentials) => Ok(Hello {
            version,
            credentials,
        }),
        Err(stop) => Err(HelloFault::Credentials {
            place: stop.place(body),
        }),
    }
}

/// The version whose three numbers stand at an offset.
fn version_at(body: &[u8], at: usize) -> Version
    requires { at ≤ length body.now }
    ensures { result ≡ version_read body.now at }
{
    Version {
        major: get_i16(body, at).unwrap_or(0),
        minor: get_i16(body, at + 2).unwrap_or(0),
        patch: get_i16(body, at + 4).unwrap_or(0),
    }
}

/// Whether a login is what follows the client code, which may also be nothing.
fn tail_login(version: Version, tail: &[u8]) -> Result<bool, Stop>
    ensures { FieldAnswers (λ yes. yes) result (tail_of version tail.now) }
{
    if tail.is_empty() {
        return Ok(false);
    }
    if !version.has_login() {
        return Err(Stop { left: tail.len() });
    }
    let rest = nullable_string_end(tail)?;
    let rest = nullable_string_end(rest)?;
    if !rest.is_empty() {
        return Err(Stop { left: rest.len() });
    }
    Ok(true)
}
