ghost use Rattle.std.specs.Prelude.{◌≡◌, ◌↔◌, IfOk, IsTrue};

use ra_cfg::{CfgAtom, CfgDiff, CfgExpr, CfgOptions};
use sqlite_items::{Boxed, Items};
use std::alloc::{AllocError, Global};
use std::hash::{DefaultHasher, Hash, Hasher};
use std::test::Fail;
use sym_core::Symbol;
use syn_trees::{CfgAtomKey, CfgPredicate, Spacing, StringLit, TokenTree, TopSubtree, TtLiteral};

// The flag of this name.
fn flag(alloc: Global, name: &str) -> Result<CfgAtom, AllocError>
    ensures { IfOk result (λ flag. flag ≡ CfgAtom.Flag name.now) }
{
    Ok(CfgAtom::Flag(Symbol::new(alloc, name)?))
}

// The atom that a word spells: `k=v` is a pair, and any other word a flag.
fn atom(alloc: Global, word: &str) -> Result<CfgAtom, AllocError> {
    match word.split_once('=') {
        Some((key, value)) => Ok(CfgAtom::KeyValue {
            key: Symbol::new(alloc, key)?,
            value: Symbol::new(alloc, value)?,
        }),
        None => flag(alloc, word),
    }
}

// The atoms that these words spell, which have blanks between.
fn atoms(alloc: Global, words: &str) -> Result<Vec<CfgAtom>, AllocError> {
    let mut atoms = Vec::new(alloc);
    for word in words.split_whitespace() {
        atoms.push(atom(alloc, word)?)?;
    }
    Ok(atoms)
}

// Options with the flag `true` and the atoms that these words spell.
fn options_with(alloc: Global, words: &str) -> Result<CfgOptions, AllocError> {
    CfgOptions::from_iter(alloc, atoms(alloc, words)?)
}

// The diff that enables some atoms and disables others.
fn diff_of(alloc: Global, enable: &str, disable: &str) -> Result<CfgDiff, AllocError> {
    Ok(CfgDiff::new(atoms(alloc, enable)?, atoms(alloc, disable)?))
}

fn mark(ch: char, spacing: Spacing) -> TokenTree {
    TokenTree::Punct { ch, spacing }
}

// `==` stands for a `=` with a mark directly behind it, and a number for a literal.
fn tree(alloc: Global, word: &str) -> Result<TokenTree, AllocError> {
    let text = Symbol::new(alloc, word)?;
    Ok(match word {
        "," => mark(',', Spacing::Alone),
        "=" => mark('=', Spacing::Alone),
        "==" => mark('=', Spacing::Joint),
        "5" | "6" => TokenTree::Literal(TtLiteral { text }),
        _ => TokenTree::Ident(text),
    })
}

// The trees of words with a blank between; brackets are words too.
fn trees(alloc: Global, text: &str) -> Result<TopSubtree, AllocError> {
    let mut outer = Vec::new(alloc);
    let mut trees = Items::new(alloc);
    for word in text.split_whitespace() {
        match word {
            "(" => {
                outer.push(trees)?;
                trees = Items::new(alloc);
            }
            ")" => {
                let group = TokenTree::Subtree(trees);
                trees = outer.pop().unwrap_or(Items::new(alloc));
                trees.push(group)?;
            }
            _ => trees.push(tree(alloc, word)?)?,
        }
    }
    Ok(TopSubtree { trees })
}

// The first predicate of these words.
fn predicate(alloc: Global, text: &str) -> Result<CfgExpr, AllocError> {
    CfgExpr::parse(alloc, &trees(alloc, text)?)
}

// The first three predicates of these words.
fn three_predicates(alloc: Global, text: &str) -> Result<String, AllocError> {
    let top = trees(alloc, text)?;
    let mut left = top.iter();
    let first = CfgExpr::parse_from_iter(alloc, &mut left)?;
    let second = CfgExpr::parse_from_iter(alloc, &mut left)?;
    let third = CfgExpr::parse_from_iter(alloc, &mut left)?;
    format!(in alloc; "{first}; {second}; {third}")
}

#[test]
fn token_trees_are_read_by_the_rules(rt: HostRuntime) -> Result<(), Fail> {
    let cases = [
        ("", "invalid; invalid; invalid"),
        ("a , b", "a; b; invalid"),
        ("5 , a", "invalid; invalid; a"),
        ("k = 5 , a", "k = \"5\"; a; invalid"),
        ("k == 5 a", "k = \"5\"; a; invalid"),
        ("k = , a", "invalid; invalid; invalid"),
        ("k == , a", "k; invalid; invalid"),
        (
            "all ( 5 , windows )",
            "all(invalid, invalid, windows); invalid; invalid",
        ),
        (
            "all ( k = , a )",
            "all(invalid, invalid, invalid, a); invalid; invalid",
        ),
        (
            "all ( k == , a )",
            "all(k, invalid, invalid, a); invalid; invalid",
        ),
        ("any ( a , b , ) , c", "any(a, b); c; invalid"),
        (
            "any ( not ( a , b ) not ( ) )",
            "any(not(a), not(invalid)); invalid; invalid",
        ),
        (
            "version ( 5 ) version ( a ) version ( 5 , )",
            "version(\"5\"); invalid; invalid",
        ),
        ("other ( a ) , b", "invalid; b; invalid"),
        ("a , , b", "a; invalid; b"),
        (
            "all ( , not ( version ( 5 ) ) any ( ) )",
            "all(invalid, not(version(\"5\")), any()); invalid; invalid",
        ),
    ];
    for (text, want) in cases {
        assert_eq!(rt;
            three_predicates(rt.alloc(), text)?.as_str(),
            want,
            "at {text}"
        );
    }
    Ok(())
}

// Options with the flag `a`, the value 5 of `k`, and an answer for the version 5.
fn options_and_a_version(alloc: Global) -> Result<CfgOptions, AllocError> {
    let mut options = options_with(alloc, "a k=5")?;
    let version = Symbol::new(alloc, "5")?;
    options.set_version(version, true)?;
    Ok(options)
}

// What the first predicate of these words reads.
fn reading(alloc: Global, options: &CfgOptions, text: &str) -> Result<Option<bool>, AllocError> {
    let expr = predicate(alloc, text)?;
    Ok(options.check(&expr))
}

#[test]
fn predicates_are_evaluated_from_the_left(rt: HostRuntime) -> Result<(), Fail> {
    let options = options_and_a_version(rt.alloc())?;
    let cases = [
        ("a", Some(true)),
        ("b", Some(false)),
        ("true", Some(true)),
        ("false", Some(false)),
        ("k = 5", Some(true)),
        ("k = 6", Some(false)),
        ("5", None),
        ("not ( a )", Some(false)),
        ("not ( b )", Some(true)),
        ("not ( 5 )", None),
        ("all ( )", Some(true)),
        ("all ( a a )", Some(true)),
        ("all ( a b )", Some(false)),
        ("all ( a 5 )", None),
        ("all ( b 5 )", Some(false)),
        ("all ( 5 b )", None),
        ("any ( )", Some(false)),
        ("any ( b b )", Some(false)),
        ("any ( b a )", Some(true)),
        ("any ( b 5 )", None),
        ("any ( a 5 )", Some(true)),
        ("any ( 5 a )", None),
        ("version ( 5 )", Some(true)),
        ("version ( 6 )", None),
    ];
    for (text, want) in cases {
        assert_eq!(rt; reading(rt.alloc(), &options, text)?, want, "{text}");
    }
    Ok(())
}

#[test]
fn predicates_are_folded(rt: HostRuntime) -> Result<(), Fail> {
    let set = |_atom: &CfgAtom| true;
    let expr = CfgExpr::from(CfgAtom::Flag(Symbol::new(rt.alloc(), "unix")?));
    assert_eq!(rt; expr.fold(&set), Some(true));
    let contrary = CfgExpr::Not(Boxed::new(rt.alloc(), expr)?);
    assert_eq!(rt; contrary.fold(&set), Some(false));
    let version = CfgExpr::Version(Symbol::new(rt.alloc(), "1.70")?);
    assert_eq!(rt; version.fold(&set), None);
    assert_eq!(rt; version.fold_with(&set, &|_text| Some(false)), Some(false));
    Ok(())
}

#[test]
fn options_are_filled_and_asked(rt: HostRuntime) -> Result<(), Fail> {
    let mut options = CfgOptions::new(rt.alloc())?;
    assert!(rt; options.insert_atom(Symbol::new(rt.alloc(), "unix")?)?);
    assert!(rt; !options.insert_atom(Symbol::new(rt.alloc(), "true")?)?);
    assert!(rt;
        options.insert_key_value(Symbol::new(rt.alloc(), "k")?, Symbol::new(rt.alloc(), "5")?)?
    );
    let expr = predicate(rt.alloc(), "all ( unix , k = 5 )")?;
    assert_eq!(rt; options.check(&expr), Some(true));
    Ok(())
}

// Whether the atom of this word is set in new options, whether they take it in, and whether it is set then.
fn insertion(alloc: Global, word: &str) -> Result<(bool, bool, bool), AllocError> {
    let mut options = CfgOptions::new(alloc)?;
    let inserted = atom(alloc, word)?;
    let before = options.check_atom(&inserted);
    let added = match inserted.clone()? {
        CfgAtom::Flag(name) => options.insert_atom(name)?,
        CfgAtom::KeyValue { key, value } => options.insert_key_value(key, value)?,
    };
    Ok((before, added, options.check_atom(&inserted)))
}

#[test]
fn reserved_atoms_are_not_inserted(rt: HostRuntime) -> Result<(), Fail> {
    let cases = [
        ("a", (false, true, true)),
        ("k=v", (false, true, true)),
        ("true", (true, false, true)),
        ("false", (false, false, false)),
        ("true=v", (false, false, false)),
        ("false=v", (false, false, false)),
    ];
    for (word, want) in cases {
        assert_eq!(rt; insertion(rt.alloc(), word)?, want, "{word}");
    }
    Ok(())
}

// The answer for the version 1.70 where each of these was given for it, one after the other.
fn answer_after(alloc: Global, answers: &[bool]) -> Result<Option<bool>, AllocError> {
    let mut options = CfgOptions::new(alloc)?;
    for answer in answers {
        let version = Symbol::new(alloc, "1.70")?;
        options.set_version(version, *answer)?;
    }
    Ok(options.version("1.70"))
}

// Options with this answer for the version 1.70.
fn options_with_version(alloc: Global, answer: bool) -> Result<CfgOptions, AllocError> {
    let mut options = CfgOptions::new(alloc)?;
    let version = Symbol::new(alloc, "1.70")?;
    options.set_version(version, answer)?;
    Ok(options)
}

// The answer for a version, where it was no before and options that say yes are taken in.
fn answer_taken_in(alloc: Global, version: &str) -> Result<Option<bool>, AllocError> {
    let mut options = options_with_version(alloc, false)?;
    options.append(options_with_version(alloc, true)?)?;
    Ok(options.version(version))
}

#[test]
fn later_answers_replace_older_ones(rt: HostRuntime) -> Result<(), Fail> {
    assert_eq!(rt; answer_after(rt.alloc(), &[])?, None);
    assert_eq!(rt; answer_after(rt.alloc(), &[true])?, Some(true));
    assert_eq!(rt; answer_after(rt.alloc(), &[true, false])?, Some(false));
    assert_eq!(rt; answer_taken_in(rt.alloc(), "1.70")?, Some(true));
    assert_eq!(rt; answer_taken_in(rt.alloc(), "1.7")?, None);
    Ok(())
}

// Whether the options are those into which the flag `a` alone was inserted.
fn is_a_alone(alloc: Global, options: &CfgOptions) -> Result<bool, AllocError> {
    let mut want = CfgOptions::new(alloc)?;
    let name = Symbol::new(alloc, "a")?;
    want.insert_atom(name)?;
    Ok(*options == want)
}

// Options that take in the atoms that these words spell.
fn extended(alloc: Global, words: &str) -> Result<CfgOptions, AllocError> {
    let mut options = CfgOptions::new(alloc)?;
    options.extend(atoms(alloc, words)?)?;
    Ok(options)
}

// A copy of options that take in others.
fn appended(alloc: Global, words: &str) -> Result<CfgOptions, AllocError> {
    let mut options = CfgOptions::new(alloc)?;
    options.append(options_with(alloc, words)?)?;
    options.shrink_to_fit()?;
    options.try_clone(alloc)
}

#[test]
fn more_atoms_are_taken_in(rt: HostRuntime) -> Result<(), Fail> {
    let made = options_with(rt.alloc(), "a true")?;
    assert!(rt; is_a_alone(rt.alloc(), &made)?);
    let none = extended(rt.alloc(), "")?;
    assert!(rt; !is_a_alone(rt.alloc(), &none)?);
    let extended = extended(rt.alloc(), "false a")?;
    assert!(rt; is_a_alone(rt.alloc(), &extended)?);
    let appended = appended(rt.alloc(), "a true")?;
    assert!(rt; is_a_alone(rt.alloc(), &appended)?);
    Ok(())
}

#[test]
fn atoms_are_listed_in_order(rt: HostRuntime) -> Result<(), Fail> {
    let listing = options_with(rt.alloc(), "k=v a")?.to_hashable(rt.alloc())?;
    let want = atoms(rt.alloc(), "a true k=v")?;
    assert!(rt; listing.atoms() == want.as_slice());
    assert!(rt; listing.try_clone(rt.alloc())? == listing);
    let other = options_with(rt.alloc(), "a")?.to_hashable(rt.alloc())?;
    assert!(rt; other != listing);
    Ok(())
}

#[test]
fn atoms_are_gone_through(rt: HostRuntime) -> Result<(), Fail> {
    let options = options_with(rt.alloc(), "k=v a")?;
    assert_eq!(rt; options.iter().count(), 3);
    assert_eq!(rt; options.get_cfg_keys().count(), 3);
    let mut values = options.get_cfg_values("k");
    assert_eq!(rt; values.next(), Some(&Symbol::new(rt.alloc(), "v")?));
    assert_eq!(rt; values.next(), None);
    assert_eq!(rt; options.into_iter().count(), 3);
    Ok(())
}

#[test]
fn diffs_leave_reserved_atoms_alone(rt: HostRuntime) -> Result<(), Fail> {
    let mut options = options_with(rt.alloc(), "a k=v")?;
    options.apply_diff(diff_of(rt.alloc(), "b false", "a true")?)?;
    assert!(rt; options == options_with(rt.alloc(), "b k=v")?);
    Ok(())
}

#[test]
fn diffs_are_written(rt: HostRuntime) -> Result<(), Fail> {
    let cases = [
        ("", "", 0, ""),
        ("b a b", "b", 1, "enable a"),
        ("", "a b", 2, "disable a and b"),
        ("c b a", "d", 4, "enable a, b and c; disable d"),
        ("a b", "b c e d", 4, "enable a; disable c, d and e"),
    ];
    for (enable, disable, len, want) in cases {
        let diff = diff_of(rt.alloc(), enable, disable)?;
        assert_eq!(rt; (diff.len(), diff.is_empty()), (len, len == 0));
        assert_eq!(rt; format!(in rt.alloc(); "{diff}")?.as_str(), want);
    }
    Ok(())
}

// What the contracts tell is enough to know how many atoms are left.
fn one_is_left(alloc: Global) -> Result<usize, AllocError>
    ensures { IfOk result (λ count. count ≡ 1) }
{
    let mut enable = Vec::new(alloc);
    enable.push(flag(alloc, "b")?)?;
    enable.push(flag(alloc, "a")?)?;
    enable.push(flag(alloc, "b")?)?;
    let mut disable = Vec::new(alloc);
    disable.push(flag(alloc, "b")?)?;
    Ok(CfgDiff::new(enable, disable).len())
}

#[test]
fn diffs_keep_their_lists_apart(rt: HostRuntime) -> Result<(), Fail> {
    assert_eq!(rt; one_is_left(rt.alloc())?, 1);
    let diff = diff_of(rt.alloc(), "a b", "c")?;
    assert!(rt; diff.enabled() == atoms(rt.alloc(), "a b")?.as_slice());
    assert!(rt; diff.disabled() == atoms(rt.alloc(), "c")?.as_slice());
    assert!(rt; diff.try_clone(rt.alloc())? == diff);
    assert!(rt; diff_of(rt.alloc(), "c", "a b")? != diff);
    Ok(())
}

// What `==` tells is known to its callers.
#[tactic(auto, using(ra_cfg::proofs::Deciding::equality))]
fn is_equal(left: &CfgExpr, right: &CfgExpr) -> bool
    ensures { IsTrue result ↔ (left.now ≡ right.now) }
{
    left == right
}

fn hash_of(expr: &CfgExpr) -> u64 {
    let mut state = DefaultHasher::new();
    expr.hash(&mut state);
    state.finish()
}

// Whether two predicates are equal, and whether they have the same hash.
fn alike(left: &CfgExpr, right: &CfgExpr) -> (bool, bool) {
    (is_equal(left, right), hash_of(left) == hash_of(right))
}

// How a predicate is to its copy.
fn alike_copied(alloc: Global, text: &str) -> Result<(bool, bool), AllocError> {
    let original = predicate(alloc, text)?;
    let copy = original.try_clone(alloc)?;
    Ok(alike(&original, &copy))
}

// How the predicates of two texts are to one another.
fn alike_texts(alloc: Global, left: &str, right: &str) -> Result<(bool, bool), AllocError> {
    let left = predicate(alloc, left)?;
    let right = predicate(alloc, right)?;
    Ok(alike(&left, &right))
}

#[test]
fn predicates_are_copied_and_compared(rt: HostRuntime) -> Result<(), Fail> {
    let text = "not ( all ( , a version ( 5 ) ) )";
    let other = "not ( all ( , b version ( 5 ) ) )";
    let alloc = rt.alloc();
    assert_eq!(rt; alike_copied(alloc, text)?, (true, true));
    assert_eq!(rt; alike_texts(alloc, text, other)?, (false, false));
    assert_eq!(rt; alike_texts(alloc, "all ( )", "any ( )")?, (false, false));
    Ok(())
}

#[test]
fn values_are_escaped(rt: HostRuntime) -> Result<(), Fail> {
    let value = Symbol::new(rt.alloc(), "a\"\\\n\r\t\0\u{1}\u{7f}é'")?;
    let key = Symbol::new(rt.alloc(), "k")?;
    let pair = CfgAtom::KeyValue { key, value };
    let want = "k = \"a\\\"\\\\\\n\\r\\t\\0\\u{1}\\u{7f}é'\"";
    assert_eq!(rt; format!(in rt.alloc(); "{pair}")?.as_str(), want);
    Ok(())
}

// A literal of this token; none where the token is no literal.
fn literal(alloc: Global, token: &str) -> Result<Option<StringLit>, AllocError> {
    Ok(StringLit::new(Symbol::new(alloc, token)?))
}

// The word of an atom; none where there is no text.
fn key(alloc: Global, word: &str) -> Result<Option<CfgAtomKey>, AllocError> {
    Ok(match word {
        "" => None,
        "true" => Some(CfgAtomKey::True),
        "false" => Some(CfgAtomKey::False),
        _ => Some(CfgAtomKey::Ident(Symbol::new(alloc, word)?)),
    })
}

// A keyword with the flags of these names.
fn composite(alloc: Global, keyword: &str, names: &str) -> Result<CfgPredicate, AllocError> {
    let mut parts = Items::new(alloc);
    for name in names.split_whitespace() {
        let key = key(alloc, name)?;
        parts.push(CfgPredicate::Atom { key, string: None })?;
    }
    Ok(CfgPredicate::Composite {
        keyword: Some(Symbol::new(alloc, keyword)?),
        parts,
    })
}

// A keyword with the names behind it, `version =` with the token behind it, or an atom of a word and a token.
fn syntax(alloc: Global, head: &str, behind: &str) -> Result<CfgPredicate, AllocError> {
    match head {
        "all" | "any" | "not" | "version" => composite(alloc, head, behind),
        "version =" => Ok(CfgPredicate::Version(literal(alloc, behind)?)),
        _ => Ok(CfgPredicate::Atom {
            key: key(alloc, head)?,
            string: literal(alloc, behind)?,
        }),
    }
}

// The text of the predicate that this syntax means.
fn meaning(alloc: Global, head: &str, behind: &str) -> Result<String, AllocError> {
    let ast = syntax(alloc, head, behind)?;
    let expr = CfgExpr::parse_from_ast(alloc, &ast)?;
    format!(in alloc; "{expr}")
}

#[test]
fn syntax_is_read(rt: HostRuntime) -> Result<(), Fail> {
    let cases = [
        ("k", "", "k"),
        ("feature", "\"net\"", "feature = \"net\""),
        ("k", "\"\\x41\"", "k = \"A\""),
        ("k", "\"\\q\"", "invalid"),
        ("k", "r\"\\q\"", "k = \"\\\\q\""),
        ("true", "\"a\"", "true"),
        ("false", "\"a\"", "false"),
        ("", "\"a\"", "invalid"),
        ("all", "a b", "all(a, b)"),
        ("all", "a", "all(a)"),
        ("any", "a b", "any(a, b)"),
        ("any", "a", "any(a)"),
        ("not", "a b", "invalid"),
        ("not", "a", "not(a)"),
        ("version", "a b", "invalid"),
        ("version", "a", "invalid"),
        ("version =", "\"1.70\"", "version(\"1.70\")"),
        ("version =", "\"\\q\"", "invalid"),
        ("version =", "", "invalid"),
    ];
    for (head, behind, want) in cases {
        assert_eq!(rt;
            meaning(rt.alloc(), head, behind)?.as_str(),
            want,
            "{head} {behind}"
        );
    }
    Ok(())
}
