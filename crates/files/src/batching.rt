// Batch: the items of a list, each as its single call, until one is refused.
ghost use Rattle.std.specs.Prelude.{◌≡◌, None};
ghost use Rattle.file_rules.specs.Items.{read_items};
ghost use Rattle.file_rules.specs.Batch as Batch;
ghost use Rattle.file_rules.specs.Batch.{item_call, batch_of};
ghost use Rattle.files.specs.Laws.Calling.Items.{Wrote, list_fault};
ghost use Rattle.files.specs.Laws.Calling.ItemSplit.{item_of, SplitItem};
ghost use Rattle.files.specs.Refusals.{disk_replied, batch_replied};

use crate::adding::add;
use crate::refusals::{BatchRefusal, DiskRefusal};
use crate::removing::remove;
use sectors::Geometry;

// The kind byte of a remove (§8.18).
const REMOVE: u8 = 1;

// The kind byte of an add (§8.18).
const ADD: u8 = 2;

// The bytes of an add's date, which comes after its name (§8.18).
const DATE_BYTES: usize = 4;

// The bytes of an add between its name and its data: the date and the length of the data (§8.18).
const DATE_AND_LENGTH: usize = 8;

// An item of a list: the remove of a name, or the add of a file by its name, date and data (§8.18).
#[derive(Clone, Copy)]
pub enum BatchItem<'a> {
    Remove(&'a [u8]),
    Add(&'a [u8], u32, &'a [u8]),
}

// The item that a list begins with and the list after it; none where the item is wrong, which is no remove and no add,
// or of which the list does not have all bytes (§7.27 §8.18).
fn split_item(list: &[u8]) -> Option<(BatchItem<'_>, &[u8])>
    ensures { SplitItem list.now result }
{
    let [kind, length, rest @ ..] = list else {
        return None;
    };
    let (name, rest) = rest.split_at_checked(usize::from(*length))?;
    match *kind {
        REMOVE => Some((BatchItem::Remove(name), rest)),
        ADD => {
            let (head, rest) = rest.split_at_checked(DATE_AND_LENGTH)?;
            let date = fields::high4(head, 0);
            let size = fields::high4(head, DATE_BYTES) as usize;
            let (content, rest) = rest.split_at_checked(size)?;
            Some((BatchItem::Add(name, date, content), rest))
        }
        _ => None,
    }
}

// The number of the first wrong item of a list (§7.27), read to its end; items are numbered from 1 (§8.18).
// The number stands beside the list that is left: an iterator of items would be a type with a contract of its own.
fn list_fault(list: &[u8]) -> Option<usize>
    ensures { result ≡ list_fault (read_items list.now) }
{
    let mut n = 1;
    let mut rest = list;
    while !rest.is_empty() {
        match split_item(rest) {
            None => return Some(n),
            Some((_, after)) => rest = after,
        }
        n += 1;
    }
    None
}

// The single call of an item (§8.19).
fn call_item(image: &mut [u8], item: BatchItem<'_>) -> Result<(), DiskRefusal>
    ensures { Wrote (item_call image.old (item_of item.entry)) (disk_replied result) image.new }
{
    match item {
        BatchItem::Remove(name) => remove(image, name),
        BatchItem::Add(name, date, content) => add(image, name, date, content),
    }
}

// The items of a list in turn, each on the image that the one before left, up to the first refusal (§8.19). The number of
// the item goes with its refusal, and stands beside the list that is left.
fn call_items(image: &mut [u8], list: &[u8]) -> Result<(), BatchRefusal>
    requires { list_fault (read_items list.now) ≡ None }
    ensures { Wrote (batch_of image.old (read_items list.now)) (batch_replied result) image.new }
{
    let mut n = 1;
    let mut rest = list;
    while let Some((item, after)) = split_item(rest) {
        if let Err(refusal) = call_item(image, item) {
            return Err(BatchRefusal::Item(n, refusal));
        }
        rest = after;
        n += 1;
    }
    Ok(())
}

// The call batch (§8.19), or 1 (§7.1), or 20, which names the first wrong item, before any item is tried (§7.27).
// In a history the items that are tried count as calls (§9.9).
pub fn batch(image: &mut [u8], list: &[u8]) -> Result<(), BatchRefusal>
    ensures { (batch_replied result ≡ (Batch.batch image.old list.now).answer) × (image.new ≡ (Batch.batch image.old list.now).image) }
{
    if image.len() != Geometry::IMAGE_BYTES {
        return Err(BatchRefusal::ImageLength);
    }
    if let Some(n) = list_fault(list) {
        return Err(BatchRefusal::WrongItem(n));
    }
    call_items(image, list)
}
