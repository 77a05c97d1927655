use ra_cfg::CfgDiff;

/// A hint of a predicate, with the number of its conjunction.
///
/// ```
/// let dnf = DnfExpr::new(alloc, &expr)?;                      // of `any(all(a, not(a)), b)`
/// let Some(found) = dnf.hint_from(alloc, &options, 0)? else { .. };        // where neither is on
/// assert!(found.number == 1);
/// assert_eq!(format!("{}", found.hint), "enable b");
/// ```
#[derive(Debug, Drop)]
pub struct NumberedHint {
    /// The number of the conjunction.
    pub number: u64,
    /// Its hint.
    pub hint: CfgDiff,
}
