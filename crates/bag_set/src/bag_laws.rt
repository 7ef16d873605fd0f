//! The laws of a bag. Each is the contract of a function that does nothing.
ghost use Rattle.std.specs.Prelude.{◌≡◌, ◌≢◌, ◌+◌, ◌%◌, ◌<◌, ◌≤◌, ℕ, List, [], ◌++◌, None, Some, length};
ghost use Rattle.msg_codec.specs.declared.letter.Letter.{Letter};
ghost use Rattle.comm_rank.specs.Fold.{fold_from, handed_from};
ghost use Rattle.owner_send.specs.Item.{item_of};
ghost use Rattle.bag_set.specs.Bags.{Items, all_inserted, bag_apply, insert_letter, inserts, turn_after};

use owner_send::MAX_ITEM;

/// Whatever letters run, a shard keeps all items that they insert, in the order of the letters, after those that it
/// kept before.
pub fn a_bag_holds_what_was_inserted()
    ensures { (here ranks : ℕ) (contents : Items) (letters : List Letter) →
        fold_from bag_apply here ranks contents letters ≡ contents ++ all_inserted letters }
{}

/// A letter with another tag, or with a body that encodes no item, inserts nothing.
pub fn other_letters_leave_a_bag_unchanged()
    ensures tag { (l : Letter) → l.tag ≢ 2 → inserts l ≡ None }
    ensures body { (l : Letter) → item_of l.body ≡ None → inserts l ≡ None }
    ensures unchanged { (here ranks : ℕ) (contents : Items) (l : Letter) → inserts l ≡ None →
        (bag_apply contents here ranks l).0 ≡ contents }
{}

/// A bag sends nothing.
pub fn bags_send_nothing()
    ensures { (here ranks : ℕ) (contents : Items) (letters : List Letter) →
        handed_from bag_apply here ranks contents letters ≡ [] }
{}

/// The letter that `bag_insert` sends inserts its item.
pub fn a_bag_insert_inserts()
    ensures { (to from : ℕ) (item : List ℕ) → length item ≤ MAX_ITEM → inserts (insert_letter to from item) ≡ Some item }
{}

/// Of the items that a rank inserts, number `count` goes to the rank that is so many after its own, round the world. So
/// items that are fewer apart than there are ranks go to different ranks.
pub fn items_go_round()
    ensures turn { (ranks here count : ℕ) → here < ranks → turn_after ranks here count ≡ (here + count) % ranks }
    ensures apart { (ranks here count later : ℕ) → here < ranks → count < later → later < count + ranks →
        turn_after ranks here count ≢ turn_after ranks here later }
{}
