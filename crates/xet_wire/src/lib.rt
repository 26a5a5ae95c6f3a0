//! The texts that pass between a store and its readers: links, terms, range headers and multipart bodies.
#![tactic(auto)]

pub mod header;
pub mod link;
pub mod multipart;
mod payload;
pub mod term;
mod text;

pub use header::{BadRangeHeader, FileRangeVariant, parse_range_header, ranges_header};
pub use link::{
    generate_fetch_url, generate_v2_fetch_url, parse_any_fetch_url, parse_fetch_url,
    parse_v2_fetch_url,
};
pub use multipart::MultipartPart;
pub use multipart::boundary::pick_boundary;
pub use multipart::read::parse_multipart_byteranges;
pub use multipart::write::write_multipart;
pub use term::{DecodedTerm, decode_term, encode_term, encode_term_with_ranges};

#[cfg(test)]
mod tests;
