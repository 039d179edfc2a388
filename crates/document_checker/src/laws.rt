//! Laws of documents that are checked.
ghost use Rattle.std.specs.Prelude.{◌≡◌, ℕ, Some, Result, MatchResult, List};
ghost use Rattle.evidence.specs.Claim.{IsTrueOf};
ghost use Rattle.instance.specs.Parts.{Parts};
ghost use Rattle.instance.specs.Program.{problem};
ghost use Rattle.certificate.specs.declared.claims.Claim as carried;
ghost use Rattle.certificate.specs.Meanings as Means;
ghost use Rattle.osil_grammar.specs.Reading.{IsInstanceText};
ghost use Rattle.osrl_grammar.specs.Reading.{IsReportText};
ghost use Rattle.osrl_writing.specs.declared.report.Report.{Report};
ghost use Rattle.document_checker.specs.declared.fault.CheckFault.{CheckFault};
ghost use Rattle.document_checker.specs.declared.fault.CheckFault.TheVariants.{Memory};
ghost use Rattle.document_checker.specs.declared.documents.Kind.{Kind};
ghost use Rattle.document_checker.specs.Documents.{kind, IsAcceptedText, DocsRefuse};
ghost use Rattle.document_checker.specs.Texts.{IsAnswerText};
ghost use Rattle.document_checker.specs.Grounds.{InstancesAreOne, ReportsAreOne};

use document_tags::tree_faults_have_one_text;
use osil_grammar::{documents_are_refused_in_one_way, documents_mean_one_instance};
use osrl_grammar::{document_has_one_refusal, document_has_one_report, report_is_not_refused};

/// Law: a document is one instance at most, and is refused in one way.
pub fn instances_are_one()
    ensures { InstancesAreOne }
{
    documents_mean_one_instance();
    documents_are_refused_in_one_way();
}

/// The laws of result documents.
fn reports_are_one()
    ensures { ReportsAreOne }
{
    document_has_one_report();
    report_is_not_refused();
    document_has_one_refusal();
}

/// Law: documents that are accepted aren't refused, but for want of memory.
pub fn accepted_documents_are_not_refused()
    ensures { (osil osrl : List ℕ) (k : Kind) (f : CheckFault) → IsAcceptedText osil osrl k → DocsRefuse osil osrl f → f ≡ Memory }
{
    instances_are_one();
    reports_are_one();
}

/// Law: documents are accepted as one kind at most.
pub fn documents_have_one_kind()
    ensures { (osil osrl : List ℕ) (j k : Kind) → IsAcceptedText osil osrl j → IsAcceptedText osil osrl k → j ≡ k }
{
    instances_are_one();
    reports_are_one();
}

/// Law: what accepted documents claim is true: whichever instance the first stands for, and whichever report the second is,
/// the report's claim is of the accepted kind, and what it says holds of the instance's points.
pub fn accepted_documents_are_true()
    ensures kind { (osil osrl : List ℕ) (k : Kind) (report : Report) (c : carried.Claim) → IsAcceptedText osil osrl k → IsReportText osrl report → report.claim ≡ Some c → kind c ≡ Some k }
    ensures is_true { (osil osrl : List ℕ) (k : Kind) (p : Parts) (report : Report) (c : carried.Claim) → IsAcceptedText osil osrl k → IsInstanceText osil p → IsReportText osrl report → report.claim ≡ Some c → IsTrueOf (problem p) (Means.claim c) }
{
    instances_are_one();
    reports_are_one();
}

/// Law: documents have one answer, in one text; want of memory has none.
pub fn documents_have_one_answer()
    ensures { (osil osrl : List ℕ) (a b : Result Kind CheckFault) (s t : List ℕ) → MatchResult a (IsAcceptedText osil osrl) (DocsRefuse osil osrl) → MatchResult b (IsAcceptedText osil osrl) (DocsRefuse osil osrl) → IsAnswerText a s → IsAnswerText b t → s ≡ t }
{
    instances_are_one();
    reports_are_one();
    tree_faults_have_one_text();
}
