//! Writes hellos.

ghost use Rattle.std.specs.Prelude.{◌≡◌, ◌≤◌, ◌++◌, length, OnOk, OnErr};
ghost use Rattle.std.specs.Option.{option_copied};
ghost use Rattle.ig_base.specs.Frames.{Frame, max_body};
ghost use Rattle.ig_wire.specs.declared.version.Version as specs;
ghost use Rattle.ig_wire.specs.Greets.{MayLogin, hello_bytes, hello_start, thin_client};

use crate::greeting::{HELLO, LEAST_HELLO, THIN_CLIENT};
use crate::hello::Login;
use crate::put::{put_len, put_string, put_version, string_len};
use crate::version::Version;
use ig_base::{NoMemory, Octets};
use std::alloc::Global;

/// The length of a hello's body, which is the same at each version.
pub fn hello_len(login: Option<&Login>) -> u128
    ensures { (v : specs.Version) → result ≡ length (hello_bytes v (option_copied login.entry)) }
{
    match login {
        None => LEAST_HELLO as u128,
        Some(login) => {
            let name = string_len(login.name.as_str()) as u128;
            let password = string_len(login.password.as_str()) as u128;
            LEAST_HELLO as u128 + name + password
        }
    }
}

/// Appends the frame of a hello. On an error the bytes are as before.
pub fn write_hello(
    alloc: Global,
    version: Version,
    login: Option<&Login>,
    out: &mut Octets,
) -> Result<(), NoMemory>
    requires login { MayLogin version (option_copied login) }
    requires small { length (hello_bytes version (option_copied login)) ≤ max_body }
    ensures ok { OnOk result (out.new
        ≡ out.old ++ Frame (hello_bytes version (option_copied login.entry))) }
    ensures err { OnErr result (out.new ≡ out.old) }
{
    let mut frame = Octets::empty(alloc);
    put_hello(&mut frame, version, login)?;
    out.append(frame.as_slice())
}

/// Appends the frame of a hello.
fn put_hello(out: &mut Octets, version: Version, login: Option<&Login>) -> Result<(), NoMemory>
    requires { length (hello_bytes version (option_copied login)) ≤ max_body }
    ensures { OnOk result (out.new
        ≡ out.old ++ Frame (hello_bytes version (option_copied login.entry))) }
{
    match login {
        None => {
            put_len(out, LEAST_HELLO as usize)?;
            put_start(out, version)
        }
        Some(login) => {
            let name = login.name.as_str();
            let password = login.password.as_str();
            let len = LEAST_HELLO as usize + string_len(name) + string_len(password);
            put_len(out, len)?;
            put_start(out, version)?;
            put_string(out, name)?;
            put_string(out, password)
        }
    }
}

/// Appends the first byte of a hello, the version and the client code.
fn put_start(out: &mut Octets, version: Version) -> Result<(), NoMemory>
    ensures { OnOk result (out.new ≡ out.old ++ hello_start version thin_client) }
{
    out.push(HELLO)?;
    put_version(out, version)?;
    out.push(THIN_CLIENT)
}
