//! The text of the job `tally`: a row for each distinct item, with the number of lines equal to it.
ghost use Rattle.std.specs.Prelude.{
  ◌≡◌,
  ◌↔◌,
  ℕ,
  ◌+◌,
  ◌++◌,
  List,
  AllPairs,
  Contains,
  IfOk,
  IsPermutation,
  OnOk,
  flat_map,
  length,
  min,
  sum_by,
};
ghost use Rattle.ygm_run.specs.TallyText.{
  AreCounts,
  IsBefore,
  IsTableOf,
  all_lines,
  distinct_items,
  pairs_of,
  table_with,
  tally_rows,
  tally_text,
};

use counting_set::Counting;
use itoa::Buffer;
use std::alloc::{AllocError, Global};

/// The table of items and their counts: one row for each entry, in byte order of the items.
///
/// The entries may come in any order. An item in two entries has two rows, the lower count first. An error
/// is lack of memory.
pub fn table_of(alloc: Global, mut entries: Vec<(&[u8], u64)>) -> Result<Vec<u8>, AllocError>
    ensures sorted_rows { IfOk result (λ text. IsTableOf (pairs_of entries.entry.items) text.items) }
    ensures text_of_counted_lines { IfOk result (λ text. (files : List (List (List ℕ))) →
        AreCounts (pairs_of entries.entry.items) (all_lines files) → text.items ≡ tally_text files) }
{
    entries.sort_unstable();
    rows_of(alloc, &entries)
}

/// The text of what the ranks keep: a row for each entry of each shard, in byte order of the items.
pub fn text_of_shards(alloc: Global, shards: &[Counting]) -> Result<Vec<u8>, AllocError>
    ensures table { IfOk result (λ text. IsTableOf (flat_map (λ shard. shard) shards.now) text.items) }
{
    let mut entries = Vec::new(alloc);
    for shard in shards {
        gather(shard, &mut entries)?;
    }
    table_of(alloc, entries)
}

// Appends what a shard has to the other entries.
fn gather<'a>(shard: &'a Counting, entries: &mut Vec<(&'a [u8], u64)>) -> Result<(), AllocError>
    ensures { OnOk result (pairs_of entries.new.items ≡ pairs_of entries.old.items ++ shard.now) }
{
    for k in 0..shard.len_here() {
        entries.push(shard.entry_here(k))?;
    }
    Ok(())
}

/// The most bytes that a row has besides its item: the 20 digits of a `u64`, TAB and LF.
const ROW_FRAME: usize = 22;

/// Bytes that are enough for the rows of the entries. If their sum is above the largest number, it is that
/// number, for which there is no memory.
fn room_for(entries: &[(&[u8], u64)]) -> usize
    ensures { result ≡ min (sum_by (λ entry. length entry.0.now + ROW_FRAME) entries.now) usize.MAX }
{
    let mut room: usize = 0;
    for (item, _) in entries {
        room = room.saturating_add(item.len()).saturating_add(ROW_FRAME);
    }
    room
}

/// A row for each entry, in the order of the entries.
fn rows_of(alloc: Global, entries: &[(&[u8], u64)]) -> Result<Vec<u8>, AllocError>
    ensures { IfOk result (λ text. text.items ≡ tally_rows (pairs_of entries.now)) }
{
    let mut text = Vec::with_capacity(alloc, room_for(entries))?;
    let mut digits = Buffer::new();
    for (item, count) in entries {
        text.extend_from_slice(digits.format(*count).as_bytes())?;
        text.push(b'\t')?;
        text.extend_from_slice(item)?;
        text.push(b'\n')?;
    }
    Ok(text)
}

/// There is one table: if items rise in byte order and are the lines of the files, their rows, each with the
/// number of lines equal to its item, are the text of these files.
pub fn one_table()
    ensures { (files : List (List (List ℕ))) (items : List (List ℕ)) → AllPairs IsBefore items →
        ((item : List ℕ) → Contains items item ↔ Contains (all_lines files) item) →
        tally_text files ≡ table_with items (all_lines files) }
{}

/// The items of the text rise in byte order, and are the lines of the files.
pub fn each_line_has_its_row()
    ensures rising { (lines : List (List ℕ)) → AllPairs IsBefore (distinct_items lines) }
    ensures lines { (lines : List (List ℕ)) (item : List ℕ) →
        Contains (distinct_items lines) item ↔ Contains lines item }
{}

/// Neither the order of the files nor that of the lines changes the text.
pub fn order_is_free()
    ensures { (files others : List (List (List ℕ))) →
        IsPermutation (all_lines files) (all_lines others) → tally_text files ≡ tally_text others }
{}

#[cfg(test)]
mod tests {
    use super::*;
    use std::test::Fail;

    #[test]
    fn rows_are_in_byte_order_of_the_items(rt: HostRuntime) -> Result<(), Fail> {
        let alloc = rt.alloc();
        let two = vec![in alloc; (b"b".as_slice(), 3), (b"a".as_slice(), 2)]?;
        assert_eq!(rt;
            table_of(alloc, two)?.as_slice(),
            b"2\ta\n3\tb\n".as_slice()
        );
        let none = Vec::new(alloc);
        assert_eq!(rt; table_of(alloc, none)?.as_slice(), b"".as_slice());
        let empty_item = vec![in alloc; (b"x".as_slice(), 1), (b"".as_slice(), 2)]?;
        assert_eq!(rt;
            table_of(alloc, empty_item)?.as_slice(),
            b"2\t\n1\tx\n".as_slice()
        );
        let requests = vec![in alloc;
            (b"POST /a".as_slice(), 1),
            (b"GET /a".as_slice(), 1),
            (b"GET /".as_slice(), 3),
        ]?;
        assert_eq!(rt;
            table_of(alloc, requests)?.as_slice(),
            b"3\tGET /\n1\tGET /a\n1\tPOST /a\n".as_slice()
        );
        Ok(())
    }

    #[test]
    fn a_front_stands_before_the_longer_item(rt: HostRuntime) -> Result<(), Fail> {
        let alloc = rt.alloc();
        let items = vec![in alloc;
            (b"\xff".as_slice(), 1),
            (b"ab".as_slice(), 10),
            (b"\x00".as_slice(), 200),
            (b"a\x00".as_slice(), 18446744073709551615),
            (b"a".as_slice(), 4),
            (b"".as_slice(), 5),
        ]?;
        assert_eq!(rt;
            table_of(alloc, items)?.as_slice(),
            b"5\t\n200\t\x00\n4\ta\n18446744073709551615\ta\x00\n10\tab\n1\t\xff\n".as_slice()
        );
        Ok(())
    }
}
