// The form of sections.
ghost use Rattle.section_forms.specs.Laws.{SectionsHaveForm};

use printable_decks::jobs_print_texts;

/// The section of an accepted job is one by its form, whatever the job prints, under whatever title begins with J.
pub fn sections_have_form()
    ensures { SectionsHaveForm }
{
    jobs_print_texts();
}
