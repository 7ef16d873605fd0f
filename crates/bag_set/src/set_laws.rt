//! The laws of a set. Each is the contract of a function that does nothing.
ghost use Rattle.std.specs.Prelude.{◌≡◌, ◌≢◌, ◌↔◌, ◌≤◌, ℕ, List, [], ◌∷◌, ◌++◌, None, Some, All, Contains, bytes_eq, length};
ghost use Rattle.std.specs.List.{IsDistinct};
ghost use Rattle.list_facts.specs.Sublist.{IsSublist};
ghost use Rattle.msg_codec.specs.declared.letter.Letter.{Letter};
ghost use Rattle.comm_rank.specs.Fold.{fold_from, handed_from};
ghost use Rattle.owner_send.specs.Item.{item_of};
ghost use Rattle.bag_set.specs.Sets.{IsOf, Items, erase_letter, erased, erases, insert_letter, inserted, inserts, set_apply};

use owner_send::MAX_ITEM;

/// Whether an item is there after letters ran is decided by the last of them that is of this item: it is there after an
/// insert, and not after an erase. Where no letter is of the item, it is there as before.
pub fn the_last_letter_decides()
    ensures insert { (here ranks : ℕ) (contents : Items) (before after : List Letter) (l : Letter) (item : List ℕ) →
        inserts l ≡ Some item → All (λ later. ¬ IsOf item later) after →
        Contains (fold_from set_apply here ranks contents (before ++ l ∷ after)) item }
    ensures erase { (here ranks : ℕ) (contents : Items) (before after : List Letter) (l : Letter) (item : List ℕ) →
        erases l ≡ Some item → All (λ later. ¬ IsOf item later) after →
        ¬ Contains (fold_from set_apply here ranks contents (before ++ l ∷ after)) item }
    ensures neither { (here ranks : ℕ) (contents : Items) (letters : List Letter) (item : List ℕ) →
        All (λ l. ¬ IsOf item l) letters →
        Contains (fold_from set_apply here ranks contents letters) item ↔ Contains contents item }
{}

/// Whatever letters run, in any order, a shard that began empty has no item twice.
pub fn no_item_is_there_twice()
    ensures { (here ranks : ℕ) (letters : List Letter) →
        IsDistinct bytes_eq (fold_from set_apply here ranks [] letters) }
{}

/// An insert of an item that is there changes nothing, and a new item goes last. An erase leaves out the item and nothing
/// else, and the others keep their order.
pub fn sets_keep_their_order()
    ensures known { (item : List ℕ) (items : Items) → Contains items item → inserted item items ≡ items }
    ensures new { (item : List ℕ) (items : Items) → ¬ Contains items item → inserted item items ≡ items ++ item ∷ [] }
    ensures erased { (item : List ℕ) (items : Items) → IsSublist (erased item items) items }
    ensures others { (item other : List ℕ) (items : Items) →
        Contains (erased item items) other ↔ (Contains items other × other ≢ item) }
{}

/// A letter with another tag, or with a body that encodes no item, changes nothing.
pub fn other_letters_leave_a_set_unchanged()
    ensures tag { (here ranks : ℕ) (contents : Items) (l : Letter) → l.tag ≢ 3 → l.tag ≢ 4 →
        (set_apply contents here ranks l).0 ≡ contents }
    ensures body { (here ranks : ℕ) (contents : Items) (l : Letter) → item_of l.body ≡ None →
        (set_apply contents here ranks l).0 ≡ contents }
{}

/// A set sends nothing.
pub fn sets_send_nothing()
    ensures { (here ranks : ℕ) (contents : Items) (letters : List Letter) →
        handed_from set_apply here ranks contents letters ≡ [] }
{}

/// The letter that `set_insert` sends inserts its item, and that of `set_erase` erases it.
pub fn set_calls_send_what_they_say()
    ensures insert { (to from : ℕ) (item : List ℕ) → length item ≤ MAX_ITEM → inserts (insert_letter to from item) ≡ Some item }
    ensures erase { (to from : ℕ) (item : List ℕ) → length item ≤ MAX_ITEM → erases (erase_letter to from item) ≡ Some item }
{}
