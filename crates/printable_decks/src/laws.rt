// What jobs print.
ghost use Rattle.printable_decks.specs.Laws.{BatchesPrintTexts, JobsPrintTexts};

use algolw_typing::nothing_forgotten;

/// The program that a job's cards spell, with its library, prints texts alone, where those cards and the data cards are texts.
pub fn jobs_print_texts()
    ensures { JobsPrintTexts }
{
    nothing_forgotten();
}

/// Each line that a job of a batch prints, and each of its dump, has no other characters than those from 32 to 126.
pub fn batches_print_texts()
    ensures { BatchesPrintTexts }
{
    nothing_forgotten();
}
