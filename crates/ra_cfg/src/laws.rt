ghost use Rattle.std.specs.Prelude.{◌≡◌, ◌↔◌, ◌&&◌, ◌||◌, not, true, false, ℕ, List};
ghost use Rattle.std.specs.Cmp.{IsTotalOrder};
ghost use Rattle.std.specs.Ordering.{nat_cmp, ordering_then};
ghost use Rattle.std.specs.declared.cmp.Ordering.TheVariants.{Less, Equal, Greater};
ghost use Rattle.std.specs.Cmp.Lexicographic.{slice_cmp};
ghost use Rattle.std.specs.List.{IsDistinct};
ghost use Rattle.std.specs.Ordering.{eq_by_cmp};
ghost use Rattle.std.specs.FinSet as set;
ghost use Rattle.ra_cfg.specs.declared.cfg_expr.CfgAtom.{CfgAtom};
ghost use Rattle.ra_cfg.specs.declared.cfg_expr.CfgAtom.TheVariants.{Flag, KeyValue};
ghost use Rattle.ra_cfg.specs.Diff.{Diff, IsDiff, stands_in, with_diff};
ghost use Rattle.ra_cfg.specs.Hashable.{Listing, IsListing, same_listing};
ghost use Rattle.ra_cfg.specs.Options.{OptionSet, IsSettable, appended, atom_cmp, is_reserved, name_of, only_true, with_all, with_free};
ghost use Rattle.ra_cfg.specs.SameOptions.{same_options};
ghost use Rattle.ra_cfg.specs.TokenLaws.{ReadInTurn};

/// The law that predicates of token trees are read one after the other, inside a group too; it computes nothing.
pub fn predicates_in_turn()
    ensures { ReadInTurn }
{}

/// Atoms are in one order: it is total, and only equal atoms tie. Each flag stands before each pair; flags are ordered
/// by their bytes, and pairs by the bytes of their keys, then of their values.
pub fn atoms_in_order()
    ensures total { IsTotalOrder atom_cmp }
    ensures ties { (a b : CfgAtom) → atom_cmp a b ≡ Equal ↔ a ≡ b }
    ensures flags { (name other : List ℕ) → atom_cmp (Flag name) (Flag other) ≡ slice_cmp nat_cmp name other }
    ensures flag_first { (name key value : List ℕ) → atom_cmp (Flag name) (KeyValue key value) ≡ Less }
    ensures pair_last { (name key value : List ℕ) → atom_cmp (KeyValue key value) (Flag name) ≡ Greater }
    ensures pairs { (key value other_key other : List ℕ) → atom_cmp (KeyValue key value) (KeyValue other_key other) ≡ ordering_then (slice_cmp nat_cmp key other_key) (slice_cmp nat_cmp value other) }
{}

/// A diff has no atom twice, and none in both lists.
pub fn diff_has_each_once()
    ensures enabled { (diff : Diff) → IsDiff diff → IsDistinct (eq_by_cmp atom_cmp) diff.enabled }
    ensures disabled { (diff : Diff) → IsDiff diff → IsDistinct (eq_by_cmp atom_cmp) diff.disabled }
    ensures apart { (diff : Diff) (a : CfgAtom) → IsDiff diff → stands_in a diff.enabled ≡ true → stands_in a diff.disabled ≡ false }
{}

/// A diff is known from the atoms that stand in its lists: two diffs with the same ones are equal.
pub fn diff_has_its_atoms()
    ensures { (diff other : Diff) → IsDiff diff → IsDiff other → ((a : CfgAtom) → stands_in a diff.enabled ≡ stands_in a other.enabled) → ((a : CfgAtom) → stands_in a diff.disabled ≡ stands_in a other.disabled) → diff ≡ other }
{}

/// The flag `true` is set and no other atom with a reserved name or key: it is so of the first options, and stays so
/// where an atom is put in, options are taken in, or a diff is applied.
pub fn options_stay_settable()
    ensures first { IsSettable only_true.atoms }
    ensures inserted { (o : OptionSet) (a : CfgAtom) → IsSettable o.atoms → IsSettable (with_free o a).atoms }
    ensures extended { (o : OptionSet) (atoms : List CfgAtom) → IsSettable o.atoms → IsSettable (with_all o atoms).atoms }
    ensures appended { (o other : OptionSet) → IsSettable o.atoms → IsSettable other.atoms → IsSettable (appended o other).atoms }
    ensures changed { (o : OptionSet) (diff : Diff) → IsSettable o.atoms → IsSettable (with_diff o diff).atoms }
{}

/// What a diff makes of a set of options: a reserved atom stays as it is; any other is set exactly where the diff enables
/// it, or it was set and the diff does not disable it. The answers stay.
pub fn diff_decides()
    ensures atoms { (o : OptionSet) (diff : Diff) (a : CfgAtom) → IsDiff diff → is_reserved (name_of a) ≡ false → set.contains (with_diff o diff).atoms a ≡ (stands_in a diff.enabled || (set.contains o.atoms a && not (stands_in a diff.disabled))) }
    ensures reserved { (o : OptionSet) (diff : Diff) (a : CfgAtom) → is_reserved (name_of a) ≡ true → set.contains (with_diff o diff).atoms a ≡ set.contains o.atoms a }
    ensures versions { (o : OptionSet) (diff : Diff) → (with_diff o diff).versions ≡ o.versions }
{}

/// Equality of options, of diffs and of listings means that they are equal, and two options have equal listings exactly
/// where they are equal.
pub fn listings_decide()
    ensures same { (o other : OptionSet) → same_options o other ≡ true ↔ o ≡ other }
    ensures listings { (l m : Listing) → same_listing l m ≡ true ↔ l ≡ m }
    ensures listed { (o other : OptionSet) (l m : Listing) → IsListing o l → IsListing other m → l ≡ m ↔ o ≡ other }
{}
