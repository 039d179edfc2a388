//! What the definitions say together of documents that are read: each is one report, or is refused in one way.

ghost use Rattle.std.specs.Prelude.{◌≡◌, ◌≢◌, ◌<◌, ℕ, Some, List, length};
ghost use Rattle.std.specs.List.{All};
ghost use Rattle.certificate.specs.Nodes.{certs_of, nodes_of, IsInRange};
ghost use Rattle.certificate.specs.declared.nodes.Cert.{Cert};
ghost use Rattle.certificate.specs.declared.claims.Claim.{Claim};
ghost use Rattle.tree_grammar.specs.Elements.{Element};
ghost use Rattle.tag_tests.specs.Firsts.{IsFirstDecided};
ghost use Rattle.osrl_writing.specs.declared.report.Report.{Report};
ghost use Rattle.osrl_grammar.specs.declared.fault.OsrlFault.{OsrlFault};
ghost use Rattle.osrl_grammar.specs.declared.fault.OsrlFault.TheVariants.{Memory};
ghost use Rattle.osrl_grammar.specs.Back.{ClaimComesBack};
ghost use Rattle.osrl_grammar.specs.Order.{number};
ghost use Rattle.osrl_grammar.specs.ParseState.{start};
ghost use Rattle.osrl_grammar.specs.Marked.{osrl, marks, IsReport, IsRefused};
ghost use Rattle.osrl_grammar.specs.Reading.{IsReportText, DecodeFails};

use crate::laws::texts_are_of_characters;

/// Law: a document is one report at most, and so are bytes.
pub fn document_has_one_report()
    ensures root { (root : Element) (r s : Report) → IsReport root r → IsReport root s → r ≡ s }
    ensures text { (bytes : List ℕ) (r s : Report) → IsReportText bytes r → IsReportText bytes s → r ≡ s }
{}

/// Law: a document is refused in one way at most, and so are bytes, but for want of memory.
pub fn document_has_one_refusal()
    ensures root { (root : Element) (f g : OsrlFault) → IsRefused root f → IsRefused root g → f ≡ g }
    ensures text { (bytes : List ℕ) (f g : OsrlFault) → f ≢ Memory → g ≢ Memory → DecodeFails bytes f → DecodeFails bytes g → f ≡ g }
{}

/// Law: a document that is a report isn't refused, nor are its bytes, but for want of memory.
pub fn report_is_not_refused()
    ensures root { (root : Element) (r : Report) (f : OsrlFault) → IsReport root r → IsRefused root f → ⊥ }
    ensures text { (bytes : List ℕ) (r : Report) (f : OsrlFault) → IsReportText bytes r → DecodeFails bytes f → f ≡ Memory }
{}

/// Law: what is told of a document is decided at the first mark at which something is, and is the least of what is decided
/// there.
pub fn first_and_least_is_told()
    ensures { (root : Element) (f : OsrlFault) → IsRefused root f → IsFirstDecided osrl number start (marks root) f }
{}

/// Law: a claim that is read has fewer nodes than its document has bytes, each of its certificates has fewer rounds, and each
/// split is at a number of at least -(2^127 - 1). Such a claim can be written and read again.
pub fn read_claims_fit()
    ensures nodes { (bytes : List ℕ) (r : Report) (c : Claim) → IsReportText bytes r → r.claim ≡ Some c → (length (nodes_of c) < length bytes) × All IsInRange (nodes_of c) }
    ensures rounds { (bytes : List ℕ) (r : Report) (c : Claim) → IsReportText bytes r → r.claim ≡ Some c → All (λ (cert : Cert). length cert.rounds < length bytes) (certs_of c) }
    ensures back { (bytes : List ℕ) (r : Report) (c : Claim) → IsReportText bytes r → r.claim ≡ Some c → ClaimComesBack (Some c) }
{
    texts_are_of_characters();
}
