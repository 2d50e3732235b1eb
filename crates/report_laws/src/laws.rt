//! What follows from the definitions alone. Each law is a contract.

ghost use Rattle.std.specs.Prelude.{◌≡◌, ℕ, List, Option};
ghost use Rattle.frame_wire.specs.declared.head.Head.{Head};
ghost use Rattle.run_report.specs.Report.{journal_lines, report_of};
ghost use Rattle.run_report.specs.Sessions.{sessions_report};
ghost use Rattle.run_report.specs.declared.session_line.EndedSession.{EndedSession};
ghost use Rattle.volume_model.specs.declared.entry.Entry.{Entry};
ghost use Rattle.volume_model.specs.History.{Spot};
ghost use Rattle.report_laws.specs.Fits.{AllFit, SessionsFit};
ghost use Rattle.report_laws.specs.Reasons.{TellOneLine};

/// Two journals with one text are equal.
pub fn lines_tell_the_journal()
    ensures { (journal other : List Entry) → AllFit journal → AllFit other
        → journal_lines 0 journal ≡ journal_lines 0 other → journal ≡ other }
{}

/// Two journals with one report are equal, whatever the headers are and wherever the runs began: for replicas that were opened
/// alike, whatever the reasons' texts are, and for any whose texts are lines.
pub fn a_report_has_one_journal()
    ensures opened_alike { (reasons : List (Option (List ℕ))) (heads heads_too : List (List Head))
        (opening opening_too : Spot) (journal other : List Entry) → AllFit journal → AllFit other
        → report_of reasons heads opening journal ≡ report_of reasons heads_too opening_too other → journal ≡ other }
    ensures opened_anyhow { (reasons reasons_too : List (Option (List ℕ))) (heads heads_too : List (List Head))
        (opening opening_too : Spot) (journal other : List Entry) → TellOneLine reasons → TellOneLine reasons_too
        → AllFit journal → AllFit other
        → report_of reasons heads opening journal ≡ report_of reasons_too heads_too opening_too other → journal ≡ other }
{}

/// A report tells of each replica how it was opened, and that none was.
pub fn a_report_has_one_opening()
    ensures { (reasons reasons_too : List (Option (List ℕ))) (heads heads_too : List (List Head))
        (opening opening_too : Spot) (journal other : List Entry) → TellOneLine reasons → TellOneLine reasons_too
        → report_of reasons heads opening journal ≡ report_of reasons_too heads_too opening_too other → reasons ≡ reasons_too }
{}

/// Two journals with one report of sessions are equal, whatever the sessions are and wherever the runs began; and so are the
/// sessions, where their numbers fit.
pub fn a_report_of_sessions_has_one_journal()
    ensures journal { (sessions sessions_too : List EndedSession) (opening opening_too : Spot)
        (journal other : List Entry) → AllFit journal → AllFit other
        → sessions_report sessions opening journal ≡ sessions_report sessions_too opening_too other
        → journal ≡ other }
    ensures sessions { (sessions sessions_too : List EndedSession) (opening opening_too : Spot)
        (journal other : List Entry) → AllFit journal → AllFit other → SessionsFit sessions → SessionsFit sessions_too
        → sessions_report sessions opening journal ≡ sessions_report sessions_too opening_too other
        → sessions ≡ sessions_too }
{}
