//! The file and the line of a place, by the line markers before it (C17 6.10.4).
ghost use Rattle.std.specs.Prelude.{◌≡◌, ◌≤◌, ◌^◌, length, IfOk};
ghost use Rattle.std.specs.Option.{option_map};
ghost use Rattle.pv_lex.specs.Bytes.{line_feeds};
ghost use Rattle.pv_lex.specs.Stands.{stands};
ghost use Rattle.pv_lex.specs.Views.{what_of};
ghost use Rattle.pv_where.specs.Spots as spots;
ghost use Rattle.pv_where.specs.Spots.{file_at, line_at};

use crate::parts::{behind, front};
use pv_lex::{Found, Standing, behind_name, fresh_behind, line_behind, stand};
use pv_token::NoMemory;
use std::alloc::Global;

/// What stands behind the first quote.
fn behind_quote(text: &[u8]) -> &[u8]
    ensures { result.now ≡ spots.behind_quote text.now }
{
    let mut rest = text;
    while rest.len() > 0 {
        if rest[0] == b'"' {
            return behind(rest, 1);
        }
        rest = behind(rest, 1);
    }
    rest
}

/// The name in a marker's quotes, as it is written there.
fn file_name(marker: &[u8]) -> &[u8]
    ensures { result.now ≡ spots.file_name marker.now }
{
    let name = behind_quote(marker);
    match behind_name(name) {
        None => &[],
        Some(after) => front(name, name.len().saturating_sub(after.len() + 1)),
    }
}

/// The file behind a piece that stands where `text` is left.
fn file_behind<'a>(found: Found<'_>, text: &'a [u8], file: &'a [u8]) -> &'a [u8]
    ensures { result.now ≡ spots.file_behind (what_of found.entry) text.now file.now }
{
    match found {
        Found::White(_) => file,
        Found::Comment(_) => file,
        Found::Marker(_) => file_name(text),
        Found::Spelling(_) => file,
    }
}

/// How many line feeds there are.
fn line_feeds(text: &[u8]) -> u32
    requires { length text.now ≤ 2 ^ 20 }
    ensures value { result ≡ line_feeds text.now }
    ensures most { result ≤ length text.now }
{
    let mut count = 0u32;
    for b in text {
        if *b == b'\n' {
            count += 1;
        }
    }
    count
}

/// The piece that stands where `rest` is left, if no fewer than `left` bytes are left behind it.
fn piece_before(
    alloc: Global,
    left: usize,
    fresh: bool,
    rest: &[u8],
) -> Result<Option<(Found<'_>, &[u8])>, NoMemory>
    requires { length rest.now ≤ 2 ^ 20 }
    ensures { IfOk result (λ piece. option_map (λ p. record { what = what_of p.0; after = p.1.now }) piece
        ≡ spots.piece_before left (stands fresh rest.now)) }
{
    match stand(alloc, fresh, rest)? {
        Standing::End => Ok(None),
        Standing::Bad(_) => Ok(None),
        Standing::Here(found, after) => {
            if left <= after.len() {
                Ok(Some((found, after)))
            } else {
                Ok(None)
            }
        }
    }
}

/// The file and the line of a place. The only error is want of memory.
pub(crate) fn spot<'a>(
    alloc: Global,
    name: &'a [u8],
    source: &'a [u8],
    place: usize,
) -> Result<(&'a [u8], u32), NoMemory>
    requires short { length source.now ≤ 2 ^ 20 }
    requires within { place ≤ length source.now }
    ensures file { IfOk result (λ spot. spot.0.now ≡ file_at name.now source.now place) }
    ensures line { IfOk result (λ spot. spot.1 ≡ line_at name.now source.now place) }
{
    let left = source.len() - place;
    let mut file = name;
    let mut rest = source;
    let mut line = 1u32;
    let mut fresh = true;
    while let Some((found, after)) = piece_before(alloc, left, fresh, rest)? {
        line = line_behind(&found, line);
        fresh = fresh_behind(&found, fresh);
        file = file_behind(found, rest, file);
        rest = after;
    }
    let between = line_feeds(front(rest, rest.len() - left));
    Ok((file, line + between))
}
