//! What holds of all scripts, as contracts of functions that do nothing.
ghost use Rattle.std.specs.Prelude.{◌≡◌, ◌↔◌, ◌⊎◌, ◌+◌, ◌<◌, ◌++◌, ◌∷◌, ℕ, [], false, true, IfSome, List, None, Some, length, map, codes};
ghost use Rattle.std.specs.List.{AllByRecursion, list_all};
ghost use Rattle.std.specs.Io.BufRead.{ends_with_byte, strip_last};
ghost use Rattle.pb_names.specs.Grammar.{IsName};
ghost use Rattle.pb_keys.specs.Printed.{word};
ghost use Rattle.pb_script.specs.declared.line.Line.{Line};
ghost use Rattle.pb_script.specs.Form.{IsString, IsLine};
ghost use Rattle.pb_script.specs.declared.line.Line.TheVariants.{Table};
ghost use Rattle.pb_script.specs.declared.script.Place.{Place};
ghost use Rattle.pb_script.specs.declared.script.Place.TheVariants.{Between};
ghost use Rattle.pb_script.specs.Faults.{place_behind, table_lines_in, moved, IsBlock, IsOffAt, IsOpenAt};
ghost use Rattle.pb_script.specs.Script.{Fault, Lines, lines_of, numbered, step};
ghost use Rattle.pb_script.specs.Spaced.{spaced, IsSolid};
ghost use Rattle.pb_script.specs.Spelling.{spelled_script};
ghost use Rattle.pb_script.specs.Texts.{texts_of, AreWhole, HasNoFeed};
ghost use Rattle.pb_script.specs.Words.{begins_with_hash, is_graphic, is_of_lines, is_skipped, words_of};
ghost use Rattle.pb_script.specs.Strings.{string_of, name_of, store_of, level_of, Spells};

/// A script that is printed from lines in form is read as these lines.
pub fn printed_scripts_are_read()
    ensures { (lines : List Line) → AllByRecursion IsLine lines → lines_of (spelled_script lines) ≡ Lines lines }
{}

/// Each line that a script without a fault says is in form.
pub fn lines_are_in_form()
    ensures { (script : List ℕ) (lines : List Line) → lines_of script ≡ Lines lines → AllByRecursion IsLine lines }
{}

/// What a reply prints of a byte string is the string's spelling in a script.
pub fn printed_strings_are_read()
    ensures { (bytes : List ℕ) → IsString bytes → string_of (word bytes) ≡ Some bytes }
{}

/// The names of scripts are those of tables, handles, pins and external objects.
pub fn names_are_those_of_objects()
    ensures { (bytes : List ℕ) → (name_of bytes ≡ Some bytes) ↔ IsName bytes }
{}

/// However many spaces stand between words, one or more, and at either end, the words are these.
pub fn spaces_part_words()
    ensures { (front : ℕ) (words : List (List ℕ × ℕ)) → AllByRecursion (λ word. IsSolid word.0) words → words_of (spaced front words) ≡ map (λ word. word.0) words }
{}

/// Before an LF a CR may stand or lack, behind any bytes that don't end in CR themselves.
pub fn line_ends_are_alike()
    ensures { (front back : List ℕ) → ends_with_byte 13 front ≡ false → numbered (front ++ 13 ∷ 10 ∷ back) ≡ numbered (front ++ 10 ∷ back) }
{}

/// The last line may lack its LF, where it doesn't end in CR.
pub fn the_last_line_end_may_lack()
    ensures { (script : List ℕ) → ends_with_byte 10 script ≡ false → ends_with_byte 13 script ≡ false → numbered (script ++ 10 ∷ []) ≡ numbered script }
{}

/// A comment, an empty line or spaces alone, put before any line, move the numbers behind them and nothing else, also in a block.
pub fn skipped_texts_say_nothing()
    ensures { (front text back : List ℕ) → AreWhole front → HasNoFeed text → is_skipped (strip_last 13 text) ≡ true
        → numbered (front ++ (text ++ 10 ∷ back)) ≡ moved (length (texts_of front) + 1) (numbered (front ++ back)) }
{}

/// A byte string is read from each of its spellings: a plain byte as itself, any byte as `%` and two digits of either case, and `%`
/// alone as no bytes. Nothing else is read.
pub fn each_spelling_is_read()
    ensures read { (word bytes : List ℕ) → 0 < length bytes → Spells word bytes → string_of word ≡ Some bytes }
    ensures empty { string_of (codes "%") ≡ Some [] }
    ensures only { (word bytes : List ℕ) → string_of word ≡ Some bytes
        → ((word ≡ codes "%") × (bytes ≡ [])) ⊎ ((0 < length bytes) × Spells word bytes) }
{}

/// The fault is the first text that says nothing where it stands, or a block that the texts don't end; and such a text or block is the
/// fault.
pub fn a_fault_is_the_first()
    ensures first { (script : List ℕ) (number : ℕ) → lines_of script ≡ Fault number
        → IsOffAt Between (texts_of script) number ⊎ IsOpenAt Between (texts_of script) number }
    ensures off { (script : List ℕ) (number : ℕ) → IsOffAt Between (texts_of script) number → lines_of script ≡ Fault number }
    ensures unended { (script : List ℕ) (number : ℕ) → IsOpenAt Between (texts_of script) number → lines_of script ≡ Fault number }
{}

/// Where each text says something, and the last of them stands in no open block, the script has its lines.
pub fn a_faultless_script_has_all()
    ensures { (script : List ℕ) → place_behind Between (texts_of script) ≡ Some Between → (lines : List Line) × (lines_of script ≡ Lines lines) }
{}

/// A block is one line: its number is that of its first text, and its lines are those between, but for skipped ones, in order.
pub fn blocks_are_one_line()
    ensures { (script : List ℕ) (block : IsBlock (texts_of script)) → (before behind : List (ℕ × Line))
        × ((numbered script).lines ≡ before ++ (length block.front + 1, Table block.table (table_lines_in block.inside)) ∷ behind) }
{}

/// A word with a byte off 0x21 to 0x7E is no string, name, store or level. So a text that holds a byte off 0x20 to 0x7E and is no
/// comment says nothing, wherever it stands: no keyword has such a byte either. Where no text before it is off, it is the fault.
pub fn keywords_are_bytes()
    ensures strings { (word : List ℕ) → IfSome (string_of word) (λ bytes. list_all is_graphic word ≡ true) }
    ensures names { (word : List ℕ) → IfSome (name_of word) (λ name. list_all is_graphic word ≡ true) }
    ensures stores { (word : List ℕ) → IfSome (store_of word) (λ store. list_all is_graphic word ≡ true) }
    ensures levels { (word : List ℕ) → IfSome (level_of word) (λ level. list_all is_graphic word ≡ true) }
    ensures lines { (place : Place) (text : List ℕ) → begins_with_hash text ≡ false → list_all is_of_lines text ≡ false → step place text ≡ None }
    ensures fault { (script : List ℕ) (front : List (List ℕ)) (text : List ℕ) (back : List (List ℕ)) (there : Place)
        → texts_of script ≡ front ++ text ∷ back → place_behind Between front ≡ Some there
        → begins_with_hash text ≡ false → list_all is_of_lines text ≡ false → lines_of script ≡ Fault (length front + 1) }
{}
