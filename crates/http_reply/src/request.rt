//! The text of a request.

ghost use Rattle.std.specs.Prelude.{◌≡◌, IfOk, length};
ghost use Rattle.http_reply.specs.Request.{request_bytes};

use link_io::{HttpUrl, Target};
use std::alloc::{AllocError, Global};

/// The bytes of the request for a target: its address's path, by HTTP/1.0, with the fields `Host`,
/// `Accept` and `Connection`. (RFC 9112, sections 3 and 5; `docs/FORMATS.md`, "Requests".)
pub fn request_text(alloc: Global, target: &Target) -> Result<Vec<u8>, AllocError>
    ensures { IfOk result (λ text. text.items ≡ request_bytes target.now.url) }
{
    request_for(alloc, &target.url)
}

/// How many bytes the request for a target has: at most 2,098. It takes no memory.
pub fn request_size(target: &Target) -> usize
    ensures { result ≡ length (request_bytes target.now.url) }
{
    size_for(&target.url)
}

const SCHEME: &[u8] = b"http://";

const GET: &[u8] = b"GET ";

const VERSION_AND_HOST: &[u8] = b" HTTP/1.0\r\nHost: ";

const ACCEPT_AND_CLOSE: &[u8] = b"\r\nAccept: */*\r\nConnection: close\r\n\r\n";

// The request for an address.
#[tactic(auto, unfolding(crate::specs::Request::request_bytes))]
fn request_for(alloc: Global, url: &HttpUrl) -> Result<Vec<u8>, AllocError>
    ensures { IfOk result (λ text. text.items ≡ request_bytes url.now) }
{
    let mut text = Vec::new(alloc);
    text.extend_from_slice(GET)?;
    text.extend_from_slice(url.path().as_bytes())?;
    text.extend_from_slice(VERSION_AND_HOST)?;
    text.extend_from_slice(url.authority().as_bytes())?;
    text.extend_from_slice(ACCEPT_AND_CLOSE)?;
    Ok(text)
}

// How many bytes that has: an address is `http://`, its authority and its path.
#[tactic(auto, using(crate::proofs::RequestLemmas::size_is, crate::proofs::RequestLemmas::is_short))]
fn size_for(url: &HttpUrl) -> usize
    ensures { result ≡ length (request_bytes url.now) }
{
    let fixed = GET.len() + VERSION_AND_HOST.len() + ACCEPT_AND_CLOSE.len();
    fixed + url.as_str().len().saturating_sub(SCHEME.len())
}
