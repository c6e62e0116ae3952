//! Laws of the texts of scenarios. The contract of each function is a law; calling it does nothing.

ghost use Rattle.rk_scenario.specs.TextLaws.{ReadsTexts, ReadsEachText, OneScenario, FaultlessAreTexts, FaultsAtFirstStop};
ghost use Rattle.rk_model.specs.declared.scenario.ScenarioWhy.TheVariants.{Header, Word, Number, Range, UnknownName, Repeated, TooMany, MissingEnd, NotAscii, TooLarge};
ghost use Rattle.rk_scenario.specs.Reasons.{ComesExactlyWhere, TextIsTooLarge, ByteIsUnallowed, HeaderIsMissing, WordIsWrong, NumberIsMissing, NumberIsOutOfRange, NameIsUnknown, NameIsRepeated, LineIsOneTooMany, EndIsMissing};

/// What the machine of the definitions reads from bytes is a scenario of which they are a text.
pub fn machine_reads_texts()
    ensures { ReadsTexts }
{}

/// The machine of the definitions reads each text of a scenario, as that scenario.
pub fn machine_reads_each_text()
    ensures { ReadsEachText }
{}

/// A text is that of one scenario.
pub fn text_has_one_scenario()
    ensures { OneScenario }
{}

/// Bytes have no fault exactly where they are a text of some scenario.
pub fn faultless_bytes_are_texts()
    ensures { FaultlessAreTexts }
{}

/// A fault is that of the whole text where it is too large, and else it is at the first line at
/// which no text goes on.
pub fn fault_is_at_first_stop()
    ensures { FaultsAtFirstStop }
{}

/// `TooLarge` comes exactly for a text of more than 1,048,576 bytes, with 0 in place of a line.
pub fn too_large_comes_for_a_large_text()
    ensures { ComesExactlyWhere TooLarge TextIsTooLarge }
{}

/// `NotAscii` comes exactly for a line with a byte that isn't allowed, before all else of the line.
pub fn not_ascii_comes_for_an_unallowed_byte()
    ensures { ComesExactlyWhere NotAscii ByteIsUnallowed }
{}

/// `Header` comes exactly for the first line that isn't skipped, where it isn't `rtems 1`, and
/// behind the last line where all are skipped.
pub fn header_comes_where_none_is()
    ensures { ComesExactlyWhere Header HeaderIsMissing }
{}

/// `Word` comes exactly for a first word that may not come there, for a wrong number of words, and
/// for the first operand that isn't right where it takes no number and isn't spelled as it must be.
pub fn word_comes_for_a_wrong_word()
    ensures { ComesExactlyWhere Word WordIsWrong }
{}

/// `Number` comes exactly for the first operand that isn't right, where it takes numbers and is
/// neither one nor what may stand in its place.
pub fn number_comes_for_no_number()
    ensures { ComesExactlyWhere Number NumberIsMissing }
{}

/// `Range` comes exactly for the first operand that isn't right, where it is a number that it doesn't
/// take, or a goto's that leads to no earlier line of the body, or to a goto.
pub fn range_comes_for_a_number_outside()
    ensures { ComesExactlyWhere Range NumberIsOutOfRange }
{}

/// `UnknownName` comes exactly for the first operand that isn't right, where it may be a body's name,
/// and no body that the line may name has it.
pub fn unknown_name_comes_for_no_known_body()
    ensures { ComesExactlyWhere UnknownName NameIsUnknown }
{}

/// `Repeated` comes exactly for a body that begins with the name of an earlier one.
pub fn repeated_comes_for_a_given_name()
    ensures { ComesExactlyWhere Repeated NameIsRepeated }
{}

/// `TooMany` comes exactly for a fifth cluster, one with which there are more than 8 processors, body
/// 33, line 1,001 of a body and init line 65, where nothing else is wrong with the line.
pub fn too_many_comes_for_a_line_too_many()
    ensures { ComesExactlyWhere TooMany LineIsOneTooMany }
{}

/// `MissingEnd` comes exactly for a text that ends behind its header and before its ticks, or in a
/// body, where nothing is wrong with its lines. The line is the one behind the last.
pub fn missing_end_comes_where_more_must_follow()
    ensures { ComesExactlyWhere MissingEnd EndIsMissing }
{}
