//! What is known of all answers to jobs.
ghost use Rattle.std.specs.Prelude.{◌≡◌, ◌⊎◌, ◌≤◌, ℕ, Bool, true, false, Option, None, Some, List, length};
ghost use Rattle.evidence.specs.ProvedBounds.{ProvedBound, IsProvedBound};
ghost use Rattle.evidence.specs.Claim.{Accepts, IsTrueOf};
ghost use Rattle.instance.specs.Parts.{Parts};
ghost use Rattle.document_tags.specs.Texts.{document_limit};
ghost use Rattle.instance.specs.Program.{problem};
ghost use Rattle.certificate.specs.Meanings as Means;
ghost use Rattle.certificate.specs.declared.claims.Claim.{Claim};
ghost use Rattle.simplex_rules.specs.Ends.{Terms, Clock};
ghost use Rattle.search_rules.specs.Search.{Found, Outcome};
ghost use Rattle.branch_bound.specs.Claims.{ClaimTellsWith, cause_of};
ghost use Rattle.certificate.specs.declared.causes.Cause.TheVariants.{Gap};
ghost use Rattle.osol_grammar.specs.declared.gaps.Gap as kinds_gap;
ghost use Rattle.osol_grammar.specs.declared.options.Options as kinds;
ghost use Rattle.osol_grammar.specs.Meaning.{IsOptionsText};
ghost use Rattle.osil_grammar.specs.Reading.{IsInstanceText};
ghost use Rattle.osrl_writing.specs.declared.report.Report.{Report};
ghost use Rattle.osrl_writing.specs.Writing.{report_text};
ghost use Rattle.osrl_grammar.specs.Reading.{IsReportText};
ghost use Rattle.document_checker.specs.declared.documents.Kind.{Kind};
ghost use Rattle.cert_checker.specs.declared.refused.Refused.{Refused};
ghost use Rattle.cert_checker.specs.Refusals.{IsRefusedFor};
ghost use Rattle.document_checker.specs.Documents.{kind, IsAcceptedText};
ghost use Rattle.solve_run.specs.Judging.{IsFinal, IsWideAt, is_bounded};
ghost use Rattle.solve_run.specs.Closings.{IsFormed, IsShort, claim_report, noted};
ghost use Rattle.rational.specs.Ratio.{Ratio};
ghost use Rattle.search_rules.specs.Beginnings.{IsFirstBest};
ghost use Rattle.search_rules.specs.Bounds.{claimed};
ghost use Rattle.search_rules.specs.Asked.{Asked, AskedSearch};
ghost use Rattle.solve_run.specs.Firsts.{IsFirstOf, IsNoteFrom};
ghost use Rattle.solve_run.specs.JobAnswers.{RefusesOptions, RefusesInstance, TakesBeside, SolvedBeside, GaveUpBeside, AnswersBeside, TellsReport, Right};
ghost use Rattle.solve_run.specs.Grounds.{OptionsAreOne, SearchesAreOne, HandedAreOne};
ghost use Rattle.fraction.specs.declared.frac.Frac.{Frac};
ghost use Rattle.solve_run.specs.Asking.{job_asked, GapHolds};
ghost use Rattle.solve_run.specs.Untils.{job_terms, renamed};

use cert_checker::{
    claims_have_one_refusal, refused_is_not_accepted, shown_is_refused_for_width_alone,
};
use document_checker::{
    accepted_documents_are_not_refused, accepted_documents_are_true, documents_have_one_answer,
    instances_are_one,
};
use document_tags::tree_faults_have_one_text;
use fraction::equal_fractions;
use handed_results::options_hand_in_one;
use instance::problems_have_numbers;
use instance_names::names_are_of_characters;
use osol_grammar::{
    document_has_one_refusal, document_says_one, options_are_not_refused, options_have_names,
};
use osrl_grammar::{
    document_has_one_report, named_texts_are_reports, read_claims_fit, written_texts_are_reports,
};
use search_rules::{
    asked_searches_are_shown, first_points_are_one, near_points_are_within_the_gap,
};

/// The laws of options' texts.
fn options_are_one()
    ensures { OptionsAreOne }
{
    document_says_one();
    options_are_not_refused();
    document_has_one_refusal();
    tree_faults_have_one_text();
}

/// The laws of searches, and of the checks of what they claim.
fn searches_are_one()
    ensures { SearchesAreOne }
{
    problems_have_numbers();
    first_points_are_one();
    asked_searches_are_shown();
    equal_fractions();
    claims_have_one_refusal();
    refused_is_not_accepted();
}

/// The laws of results that are handed in.
fn handed_are_one()
    ensures { HandedAreOne }
{
    options_hand_in_one();
    document_has_one_report();
    accepted_documents_are_not_refused();
    documents_have_one_answer();
}

/// Law: whether the options are refused, the instance is, a result that is handed in is taken, or the instance is searched, is decided
/// by their texts, but for want of memory.
pub fn answers_exclude_each_other()
    ensures options_instance { (osil osol : List ℕ) (r s : Report) → RefusesOptions osol r → RefusesInstance osil osol s → ⊥ }
    ensures options_search { (beside : Option (List ℕ)) (osil osol : List ℕ) (stop : Option ℕ) (timed : Option Frac) (looks : ℕ) (r s : Report) → RefusesOptions osol r → SolvedBeside beside osil osol stop timed looks s → ⊥ }
    ensures instance_search { (beside : Option (List ℕ)) (osil osol : List ℕ) (stop : Option ℕ) (timed : Option Frac) (looks : ℕ) (r s : Report) → RefusesInstance osil osol r → SolvedBeside beside osil osol stop timed looks s → ⊥ }
    ensures options_handed { (beside : Option (List ℕ)) (osil osol : List ℕ) (r s : Report) → RefusesOptions osol r → TakesBeside beside osil osol s → ⊥ }
    ensures instance_handed { (beside : Option (List ℕ)) (osil osol : List ℕ) (r s : Report) → RefusesInstance osil osol r → TakesBeside beside osil osol s → ⊥ }
    ensures handed_search { (beside : Option (List ℕ)) (osil osol : List ℕ) (stop : Option ℕ) (timed : Option Frac) (looks : ℕ) (r s : Report) → TakesBeside beside osil osol r → SolvedBeside beside osil osol stop timed looks s → ⊥ }
{
    options_are_one();
    instances_are_one();
    handed_are_one();
}

/// Law: a job has one answer of each kind: one for refused options, one for a refused instance, one for a result that is handed in
/// and taken, and one for a search that no look stops, or that the same look
/// stops, for the same time or for none, after so many looks.
pub fn answers_are_one()
    ensures options { (osol : List ℕ) (r s : Report) → RefusesOptions osol r → RefusesOptions osol s → r ≡ s }
    ensures instance { (osil osol : List ℕ) (r s : Report) → RefusesInstance osil osol r → RefusesInstance osil osol s → r ≡ s }
    ensures search { (beside : Option (List ℕ)) (osil osol : List ℕ) (stop : Option ℕ) (timed : Option Frac) (looks more : ℕ) (r s : Report) → SolvedBeside beside osil osol stop timed looks r → SolvedBeside beside osil osol stop timed more s → (r ≡ s) × (looks ≡ more) }
    ensures handed { (beside : Option (List ℕ)) (osil osol : List ℕ) (r s : Report) → TakesBeside beside osil osol r → TakesBeside beside osil osol s → r ≡ s }
{
    options_are_one();
    instances_are_one();
    searches_are_one();
    handed_are_one();
}

/// Law: a claim that a search finds, that a point is optimal, that none is feasible or that points have no best value, is refused
/// by the checker for width alone.
pub fn found_claims_are_refused_for_width_alone()
    ensures { (p : Parts) (t : Terms) (a : Asked) (gs : Option (List (Option Ratio))) (start : Option Found) (o : Outcome) (b : Option ProvedBound) (found : Claim) (c : Clock) (r : Refused) → IsFirstBest (problem p) gs start → AskedSearch (problem p) t a start o b c → ClaimTellsWith found o b → IsFinal found → IsRefusedFor (problem p) (Means.claim found) r → (n : ℕ) × IsWideAt r n }
{
    problems_have_numbers();
    asked_searches_are_shown();
    shown_is_refused_for_width_alone();
}

/// Law: where the search of a job that isn't asked to stop ends with a claim that is refused for no width, and is accepted with its
/// bound, if it has one, and whose document isn't too long in the form that is asked for, the job's answer tells it so, with the message about a result that is handed in and about first values, which aren't taken, if there are such;
/// or such a result is taken, or memory is wanting, or a time that its options say was over at a look. Such is each claim that a point is optimal, that none is feasible or that points
/// have no best value, and that the checker accepts.
pub fn ended_searches_are_told()
    ensures { (beside : Option (List ℕ)) (osil osol : List ℕ) (o : kinds.Options) (p : Parts) (start : Option Found) (oc : Outcome) (b : Option ProvedBound) (found formed : Claim) (c : Clock) (r : Report) → IsOptionsText osol o → IsInstanceText osil p → IsFirstOf (problem p) o start → AskedSearch (problem p) (job_terms o None) (job_asked o) start oc b c → ClaimTellsWith found oc b → ((q : Refused) (n : ℕ) → IsRefusedFor (problem p) (Means.claim found) q → IsWideAt q n → ⊥) → (is_bounded found ≡ true → Accepts (problem p) (Means.claim found)) → IsFormed p o.job o.form found formed → IsShort o.job formed → AnswersBeside beside osil osol false r → ((note : Option (List ℕ)) × IsNoteFrom beside osol o p start note × (r ≡ noted note (claim_report o.job formed))) ⊎ TakesBeside beside osil osol r ⊎ GaveUpBeside beside osil osol r ⊎ ((s : Frac) × (looks : ℕ) × (o.seconds ≡ Some s) × SolvedBeside beside osil osol (Some looks) (Some s) looks r) }
{
    options_are_one();
    instances_are_one();
    searches_are_one();
    handed_are_one();
}

/// Law: a search that is given up and has a bound tells it, but where a sum of its nodes doesn't fit or the document would be too long
/// with it; a search of which no bound is asked has none. One is given up for a gap only where the options say one, and then no feasible
/// point is better than its best one by more than that allows.
pub fn bounds_are_told()
    ensures told { (beside : Option (List ℕ)) (osil osol : List ℕ) (stop : Option ℕ) (timed : Option Frac) (looks : ℕ) (r : Report) (s : SolvedBeside beside osil osol stop timed looks r) (b : ProvedBound) → s.bound ≡ Some b → IsProvedBound (problem s.given.parts) b → IsShort s.given.options.job s.found → Means.claim s.told ≡ claimed (renamed timed s.outcome) (Some b) }
    ensures unasked { (beside : Option (List ℕ)) (osil osol : List ℕ) (stop : Option ℕ) (timed : Option Frac) (looks : ℕ) (r : Report) (s : SolvedBeside beside osil osol stop timed looks r) → (s.given.options.bound ≡ 1 → ⊥) → s.bound ≡ None }
    ensures gap { (beside : Option (List ℕ)) (osil osol : List ℕ) (stop : Option ℕ) (timed : Option Frac) (looks : ℕ) (r : Report) (s : SolvedBeside beside osil osol stop timed looks r) → cause_of s.outcome ≡ Some Gap → (g : kinds_gap.Gap) × (s.given.options.gap ≡ Some g) × GapHolds (problem s.given.parts) g s.ends.last s.ends.numbers }
{
    problems_have_numbers();
    asked_searches_are_shown();
    near_points_are_within_the_gap();
}

/// Law: whatever an answer says, be it a claim, that nothing is known, or why the options or the instance were refused, its document
/// is read as that answer, and isn't longer than a document may be, with names too where they are asked for.
pub fn result_documents_are_read_back()
    ensures read { (beside : Option (List ℕ)) (osil osol : List ℕ) (asked : Bool) (r : Report) → AnswersBeside beside osil osol asked r → IsReportText (report_text r) r }
    ensures short { (beside : Option (List ℕ)) (osil osol : List ℕ) (asked : Bool) (r : Report) → AnswersBeside beside osil osol asked r → length (report_text r) ≤ document_limit }
    ensures told { (beside : Option (List ℕ)) (osil osol : List ℕ) (asked : Bool) (r : Report) (text : List ℕ) → AnswersBeside beside osil osol asked r → TellsReport osil osol r text → IsReportText text r }
{
    names_are_of_characters();
    named_texts_are_reports();
    options_have_names();
    problems_have_numbers();
    asked_searches_are_shown();
    read_claims_fit();
    written_texts_are_reports();
}

/// Law: what an answer claims, be it that a point is optimal, that none is feasible, that points have no best value, or a
/// point, is accepted by the checker of documents from the bytes of the answer's document, with names or without, and is true.
pub fn claims_are_accepted()
    ensures accepted { (beside : Option (List ℕ)) (osil osol : List ℕ) (asked : Bool) (r : Report) (c : Claim) (k : Kind) → AnswersBeside beside osil osol asked r → r.claim ≡ Some c → kind c ≡ Some k → IsAcceptedText osil (report_text r) k }
    ensures told { (beside : Option (List ℕ)) (osil osol : List ℕ) (asked : Bool) (r : Report) (text : List ℕ) (c : Claim) (k : Kind) → AnswersBeside beside osil osol asked r → TellsReport osil osol r text → r.claim ≡ Some c → kind c ≡ Some k → IsAcceptedText osil text k }
    ensures is_true { (beside : Option (List ℕ)) (osil osol : List ℕ) (asked : Bool) (p : Parts) (r : Report) (c : Claim) (k : Kind) → IsInstanceText osil p → AnswersBeside beside osil osol asked r → r.claim ≡ Some c → kind c ≡ Some k → IsTrueOf (problem p) (Means.claim c) }
{
    result_documents_are_read_back();
    options_have_names();
    problems_have_numbers();
    asked_searches_are_shown();
    read_claims_fit();
    written_texts_are_reports();
    accepted_documents_are_true();
}
