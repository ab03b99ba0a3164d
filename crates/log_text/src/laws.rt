//! What is true of the texts of logs, as public functions without a body whose clause is the law.
ghost use Rattle.log_text.specs.Laws.{TextOfOne, PrintedReadsBack, OneBadLine, MeaningIsTheTexts};

/// A text is that of one log.
pub fn text_of_one()
    ensures { TextOfOne }
{}

/// What is printed of a printable log reads back as that log.
pub fn printed_reads_back()
    ensures { PrintedReadsBack }
{}

/// A text has one first bad line.
pub fn one_bad_line()
    ensures { OneBadLine }
{}

/// The nodes that are read are those that have the text, and the line that is told is the first bad one.
pub fn meaning_is_the_texts()
    ensures { MeaningIsTheTexts }
{}
