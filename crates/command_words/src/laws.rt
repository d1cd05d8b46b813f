ghost use Rattle.command_words.specs.Laws.{WordsSayOneOrder};

/// A list of words says at most one order.
pub fn words_say_one_order()
    ensures { WordsSayOneOrder }
{}
