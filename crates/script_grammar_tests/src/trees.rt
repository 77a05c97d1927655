use script_grammar::read_trees;
use std::alloc::{AllocError, Global};
use std::test::Fail;
use syn_trees::{Spacing, TokenTree};
use text_cut::begin;

// Adds a tree: a word as it is, a literal in `'`, a mark with `^` where it is joint, a group in `<` and `>`.
#[cycle(showing)]
fn show(tree: &TokenTree, out: &mut String) -> Result<(), AllocError> {
    match tree {
        TokenTree::Ident(word) => out.push_str(word.as_str()),
        TokenTree::Literal(literal) => {
            out.push('\'')?;
            out.push_str(literal.text.as_str())?;
            out.push('\'')
        }
        TokenTree::Punct { ch, spacing } => {
            out.push(*ch)?;
            match spacing {
                Spacing::Joint => out.push('^'),
                Spacing::Alone => Ok(()),
            }
        }
        TokenTree::Subtree(inside) => {
            out.push('<')?;
            show_all(inside.as_slice(), out)?;
            out.push('>')
        }
    }
}

// Adds trees, each with a space in front.
#[cycle(showing)]
fn show_all(trees: &[TokenTree], out: &mut String) -> Result<(), AllocError> {
    for tree in trees {
        out.push(' ')?;
        show(tree, out)?;
    }
    Ok(())
}

// The trees of a short text, and what is left behind them.
fn told(alloc: Global, text: &str) -> Result<String, AllocError> {
    let mut out = String::new(alloc);
    if text.len() > 1000 {
        return Ok(out);
    }
    let (trees, end) = read_trees(alloc, begin(text))?;
    show_all(trees.as_slice(), &mut out)?;
    out.push('|')?;
    out.push_str(end.rest)?;
    Ok(out)
}

// The example of `read_trees`.
#[test]
fn reads_some_trees(rt: HostRuntime) -> Result<(), Fail> {
    let (trees, end) = read_trees(rt.alloc(), begin("a = (b) )"))?;
    assert_eq!(rt; (trees.len(), end.rest), (3, " )"));
    Ok(())
}

#[test]
fn reads_trees(rt: HostRuntime) -> Result<(), Fail> {
    let cases = [
        ("", "|"),
        ("a 1x \"s\" ( [ { } ] ) =>", " a '1x' 's' < < <>>> =^ >|"),
        ("all(a, b = r#\"c\"\"#)\nd", " all < a , b = 'c\"'>|\nd"),
        ("a (b", " a| (b"),
        ("a (b])", " a| (b])"),
        ("a)", " a|)"),
        ("a \"b", " a| \"b"),
    ];
    for (text, want) in cases {
        assert_eq!(rt; told(rt.alloc(), text)?.as_str(), want, "of {text}");
    }
    Ok(())
}
