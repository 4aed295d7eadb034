// The plain book: what a book of financed emissions is and answers, as mathematics that the engine's contracts cite.
#![tactic(auto)]

ghost use Rattle.plain.specs.Due.{RefusedWhenDue};
ghost use Rattle.plain.specs.EachCall.{EachCallChangesWhatItNames};
ghost use Rattle.plain.specs.EveryRun.{EveryRunKeepsEveryKilogram};
ghost use Rattle.plain.specs.Kept.{KeptByEachCall};
ghost use Rattle.plain.specs.Kilograms.{TotalIsRoundedOnce};
ghost use Rattle.plain.specs.Listed.{ListedAsAnswered};
ghost use Rattle.plain.specs.ShutOut.{SimplerAnswersShutOut};
ghost use Rattle.plain.specs.Worked.{WorkedCases};
ghost use Rattle.plain.specs.WorkedKinds.{WorkedKinds};
ghost use Rattle.plain.specs.WorkedRefusals.{WorkedRefusals};
ghost use Rattle.plain.specs.WorkedYear.{WorkedYear};

pub mod answers;
pub mod limits;

// No run of calls gains or loses a kilogram, under whatever rule and with whatever sources.
pub fn every_run_keeps_every_kilogram()
    ensures { EveryRunKeepsEveryKilogram }
{}

// Each call is declined with the first refusal that is due, and with no other.
pub fn refused_when_due()
    ensures { RefusedWhenDue }
{}

// What a book keeps to is kept by each call, and so by every run.
pub fn kept_by_each_call()
    ensures { KeptByEachCall }
{}

// A total needs no sum over branches: it is the figure rounded once.
pub fn total_is_rounded_once()
    ensures { TotalIsRoundedOnce }
{}

// Five ways of parting a figure that look simpler gain or lose kilograms.
pub fn simpler_answers_shut_out()
    ensures { SimplerAnswersShutOut }
{}

// The definitions answer small books as reckoned by hand.
pub fn worked_cases()
    ensures { WorkedCases }
{}

// Where several refusals apply to a call, the one that is due comes first.
pub fn worked_refusals()
    ensures { WorkedRefusals }
{}

// A year of all kinds of calls, with every figure of its book total.
pub fn worked_year()
    ensures { WorkedYear }
{}

/// A book with an investee of each kind, and every figure that it answers.
pub fn worked_kinds()
    ensures { WorkedKinds }
{}

/// The accounts and the sheets that a page is made of are what the book's readings answer, one by one.
pub fn listed_as_answered()
    ensures { ListedAsAnswered }
{}

// Each call changes what it names, and nothing else.
pub fn each_call_changes_what_it_names()
    ensures { EachCallChangesWhatItNames }
{}
