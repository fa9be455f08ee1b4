//! The tries of a map: for each side, one of the patterns of the rules that act there.
//!
//! A trie is made once, as rows of bytes, by sorting the patterns and building the nodes level by
//! level. Then it is only read, by walks along the bytes of a name.

ghost use Rattle.std.specs.Prelude.{◌+◌, ◌/◌, length, All, IfOk, OnOk};
ghost use Rattle.virtiofs_map.specs.NodeParts.{AreTrieRows};
ghost use Rattle.virtiofs_map.specs.Rule.{HasNoZero};
ghost use Rattle.virtiofs_map.specs.declared.xattrmap.scopes.Side.TheVariants.{Client, Server};

mod build;
mod compare;
mod keyed;
mod node;
mod patterns;
mod reading;
mod rows;
mod walk;

use crate::xattrmap::image::header::HEADER;
use crate::xattrmap::rules::Rules;
use crate::xattrmap::scopes::Side;
use build::{PatternRange, build_trie};
pub(crate) use compare::common_prefix_length;
pub(crate) use node::NO_ANSWER;
use patterns::{Pattern, fill_patterns};
pub(crate) use reading::Trie;
pub(crate) use rows::{ROW, push_rows};
use std::alloc::{AllocError, Allocator};
pub(crate) use walk::{first_place, look_up};

/// From this many rules on, an answer has too few bits for the place of a rule.
const TOO_MANY_RULES: usize = 70368744177663;

/// Makes `rows` those of the trie of the patterns of the rules that act on a side. The trie begins at
/// a place that is counted in eights, and labels are counted from the first byte of all patterns.
fn make_trie<'r, A: Allocator>(
    rows: &mut Vec<u8, A>,
    rules: &'r Rules<A>,
    patterns: &mut Vec<Pattern<'r>, A>,
    ranges: &mut Vec<PatternRange, A>,
    side: Side,
    first: usize,
) -> Result<(), AllocError>
    requires { All HasNoZero rules.now.list }
    ensures { OnOk result (AreTrieRows side rules.now.list rules.now.bytes rows.new.items first) }
{
    if rules.len() >= TOO_MANY_RULES {
        return Err(AllocError);
    }
    fill_patterns(patterns, rules, side)?;
    build_trie(rows, patterns.as_slice(), rules.bytes(), ranges, first)
}

/// The rows of the client's trie, which stand after the header of an image, and those of the
/// server's, which stand after these.
// (what is taken last is given back first: then the image may stand there)
pub(crate) fn tries_of<A: Allocator + Copy>(
    alloc: A,
    rules: &Rules<A>,
) -> Result<(Vec<u8, A>, Vec<u8, A>), AllocError>
    requires { All HasNoZero rules.now.list }
    ensures client { IfOk result (λ rows.
        AreTrieRows Client rules.now.list rules.now.bytes rows.0.items 6) }
    ensures server { IfOk result (λ rows.
        AreTrieRows Server rules.now.list rules.now.bytes rows.1.items
        ((48 + length rows.0.items) / 8)) }
{
    // Most often there are not many more nodes than patterns.
    let most = rules.len().saturating_add(rules.len() / 2);
    let mut client = Vec::with_capacity(alloc, most.saturating_mul(ROW))?;
    let mut server = Vec::with_capacity(alloc, most.saturating_mul(ROW))?;
    let mut patterns = Vec::with_capacity(alloc, rules.len())?;
    let mut ranges = Vec::with_capacity(alloc, most)?;
    make_trie(
        &mut client,
        rules,
        &mut patterns,
        &mut ranges,
        Side::Client,
        HEADER / 8,
    )?;
    let after = (HEADER + client.len()) / 8;
    make_trie(
        &mut server,
        rules,
        &mut patterns,
        &mut ranges,
        Side::Server,
        after,
    )?;
    Ok((client, server))
}
