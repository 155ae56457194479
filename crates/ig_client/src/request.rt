//! The frames of requests.

ghost use Rattle.std.specs.Prelude.{◌≡◌, ◌≢◌, ◌↔◌, ◌≤◌, ◌++◌, true, false, length, IsTrue, IfOk, Ok};
ghost use Rattle.ig_base.specs.Frames.{Frame, max_body};
ghost use Rattle.ig_ops.specs.Requests.{IsOpsRequest};
ghost use Rattle.ig_meta.specs.Requests.{IsMetaRequest};
ghost use Rattle.ig_client.specs.RequestBodies.{IsSubmittable, is_meta, request_body};

use ig_base::{NoMemory, Octets};
use ig_caches::{Call, Request};
use std::alloc::Global;

/// Whether the request is on the names of caches or on descriptions of types.
fn is_meta(request: &Request) -> bool
    ensures answer { result ≡ is_meta request.now }
    ensures meta { result ≡ true → IsMetaRequest request.now }
    ensures ops { result ≡ false → IsSubmittable request.now → IsOpsRequest request.now }
{
    let Request::Run(call) = request else {
        return false;
    };
    match call {
        Call::Names => true,
        Call::Create { .. } => true,
        Call::GetOrCreate { .. } => true,
        Call::Destroy { .. } => true,
        Call::TypeName { .. } => true,
        Call::SetTypeName { .. } => true,
        Call::TypeOf { .. } => true,
        Call::PutType { .. } => true,
        _ => false,
    }
}

/// Appends the frame of the request, unless its body is above the limit of frames. Answers whether it
/// did. Where it did not, and on an error, the bytes are as before.
pub(crate) fn write_request(
    alloc: Global,
    id: i64,
    request: &Request,
    out: &mut Octets,
) -> Result<bool, NoMemory>
    requires { IsSubmittable request.now }
    ensures when { IfOk result (λ done. IsTrue done
        ↔ (length (request_body id request.now) ≤ max_body)) }
    ensures done { result ≡ Ok true → out.new ≡ out.old ++ Frame (request_body id request.now) }
    ensures unchanged { result ≢ Ok true → out.new ≡ out.old }
{
    if is_meta(request) {
        return ig_meta::write_ask(alloc, id, request, out);
    }
    ig_ops::write_ask(alloc, id, request, out)
}
