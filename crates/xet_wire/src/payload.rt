//! Payloads of links and terms, in base64 with the URL-safe alphabet and no padding (RFC 4648 section 5).
ghost use Rattle.std.specs.Prelude.{◌≡◌, IfOk, string_bytes};
ghost use Rattle.base64.specs.Engines.{url_safe_no_pad};
ghost use Rattle.base64.specs.GeneralPurpose.{encode_of};
ghost use Rattle.xet_wire.specs.Payloads.{Encodes, ReadsBytes, ReadsPayload};

use base64::DecodeAllocError;
use base64::engine::general_purpose::URL_SAFE_NO_PAD;
use std::alloc::Global;
use xet_types::{ClientError, OutOfMemory};

/// The base64 of a payload.
pub(crate) fn encode(alloc: Global, payload: &str) -> Result<String, OutOfMemory>
    ensures text { IfOk result (λ text. string_bytes text ≡ encode_of url_safe_no_pad payload.now) }
    ensures encodes { IfOk result (λ text. Encodes (string_bytes text) payload.now) }
{
    let bytes = payload.as_bytes();
    Ok(URL_SAFE_NO_PAD.encode(alloc, bytes)?)
}

/// The bytes of which a text is the canonical base64.
fn decode_bytes(alloc: Global, text: &str) -> Result<Vec<u8>, ClientError>
    ensures { ReadsBytes text.now result }
{
    match URL_SAFE_NO_PAD.decode(alloc, text.as_bytes()) {
        Ok(bytes) => Ok(bytes),
        Err(DecodeAllocError::DecodeError(_)) => Err(ClientError::InvalidArguments),
        Err(DecodeAllocError::OutOfMemory) => Err(ClientError::OutOfMemory),
    }
}

/// The payload of a text, which must be its canonical base64.
pub(crate) fn decode(alloc: Global, text: &str) -> Result<String, ClientError>
    ensures { ReadsPayload text.now result }
{
    match decode_bytes(alloc, text) {
        Ok(bytes) => match String::from_utf8(bytes) {
            Ok(payload) => Ok(payload),
            Err(_) => Err(ClientError::InvalidArguments),
        },
        Err(error) => Err(error),
    }
}
