//! A law about `==` for edits and their parts.

ghost use Rattle.std.specs.Prelude.{◌≡◌, List};
ghost use Rattle.std.specs.Bool.{Decides};
ghost use Rattle.crush_edits.specs.declared.edit.Edit.{Edit};
ghost use Rattle.crush_edits.specs.declared.location.Pair.{Pair};
ghost use Rattle.crush_edits.specs.SameEdit.{same_edit};
ghost use Rattle.crush_edits.specs.SamePairs.{same_pair, same_pairs};

/// `==` returns `true` for two pairs, two locations or two edits if and only if they are the same
/// value. Two locations are the same value if they have the same pairs in the same order.
pub fn equal_is_same()
    ensures pairs { (a b : Pair) → Decides (same_pair a b) (a ≡ b) }
    ensures locations { (l m : List Pair) → Decides (same_pairs l m) (l ≡ m) }
    ensures edits { (a b : Edit) → Decides (same_edit a b) (a ≡ b) }
{}
