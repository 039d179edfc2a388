//! Rules by their names.
/// By which rules runs and searches go: by least indices from the rows (Bland, 1977), or by the dual method from the last dictionary (Lemke,
/// 1954).
#[derive(Clone, Copy, PartialEq, Eq, Debug)]
pub enum RuleName {
    Bland,
    Fast,
}
