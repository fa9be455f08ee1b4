//! The words of a map, as C lends them.
ghost use Rattle.std.specs.Prelude.{◌≡◌, ◌↔◌, List, IsTrue};
ghost use Rattle.virtiofs_map.specs.Image.{IsImage, IsNoImage};
ghost use Rattle.virtiofs_map.specs.declared.cmdline.IdMap.{IdMap as Specification};
ghost use Rattle.virtiofs_map_c.specs.Wholes.{AreAllWords, IsIdMap, IsNoIdMap, cleared};

/// Words that C lends, and how many they are: two arguments of C.
///
/// The header demands an address that is not NULL, also of no words. For a plain slice the kit puts
/// another address in the place of NULL, and each lookup would wait for that.
#[repr(C)]
#[derive(Clone, Copy)]
pub struct Words<'w> {
    /// The words.
    pub lent: &'w [u32],
}

/// Whether there are as many words as they say.
#[inline(always)]
pub fn are_all(words: &[u32]) -> bool
    ensures { IsTrue result ↔ AreAllWords words.now }
{
    words.len() >= 4 && words.len() == 4 + 4 * (words[1] as usize + words[2] as usize)
}

/// The words, where they are as many as they say, and else none: then no call takes them for a map.
#[inline(always)]
pub fn all_of(words: &[u32]) -> &[u32]
    ensures map { (specs : List Specification) → IsIdMap specs words.now
        → IsImage specs result.now }
    ensures no_map { IsNoIdMap words.now → IsNoImage result.now }
{
    if are_all(words) { words } else { &[] }
}

/// Leaves words that are no map.
pub fn clear(words: &mut [u32])
    ensures { words.new ≡ cleared words.old }
{
    if !words.is_empty() {
        words[0] = 0;
    }
}
