// The form of listings.
ghost use Rattle.listing_forms.specs.Laws.{BatchesAreApart, InputsHold, ListingsHaveForm};

use section_forms::sections_have_form;

/// The listing of a batch in which cards and names are texts, and jobs without a flaw within the limits, is one by its form, whatever its jobs print:
/// its sections are those of the batch's jobs, in order, and its closing lines those of the batch.
pub fn batches_are_apart()
    ensures { BatchesAreApart }
{
    sections_have_form();
}

/// Every input is such a batch, on its own accounts or on others whose names are texts.
pub fn inputs_hold()
    ensures { InputsHold }
{}

/// So the listing of every input is one by its form.
pub fn listings_have_form()
    ensures { ListingsHaveForm }
{
    sections_have_form();
}
