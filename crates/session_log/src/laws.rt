//! What the definitions say of each other.

ghost use Rattle.std.specs.Prelude.{◌≡◌, ◌<◌, ◌≤◌, ◌+◌, ◌++◌, ℕ, List, length, map, Some, None};
ghost use Rattle.std.specs.Prelude.{Contains};
ghost use Rattle.std.specs.List.{AllByRecursion};
ghost use Rattle.session_log.specs.Lines.{lines, form_of};
ghost use Rattle.session_log.specs.Faults.{grammar_fault};
ghost use Rattle.session_log.specs.Blocks.{blocks_of, block_text, block_fault, first_of};
ghost use Rattle.session_log.specs.Text.{ClientSession, IsLegal, IsHeldBy, IsLegalLine, line_text};
ghost use Rattle.session_log.specs.Text.{session_text};
ghost use Rattle.session_log.specs.Text.{log_text, least_version};
ghost use Rattle.session_log.specs.Version.{header_text, first_line, version_of, body_of};
ghost use Rattle.session_log.specs.Version.{version_number};
ghost use Rattle.session_log.specs.declared.block.Block.{Block};
ghost use Rattle.session_log.specs.declared.line.Line.{Line};
ghost use Rattle.session_log.specs.declared.version.Version.{Version};

/// A log is the header of its version and the body behind it, by bytes and by lines, and a header
/// tells its version.
pub fn header_and_body()
    ensures text { (text : List ℕ) → text ≡ header_text (version_of text) ++ body_of text }
    ensures lines { (text : List ℕ)
        → lines text ≡ lines (header_text (version_of text)) ++ lines (body_of text) }
    ensures first { (v : Version) → first_line v ≡ length (lines (header_text v)) + 1 }
    ensures told { (v : Version) (body : List ℕ) → 1 < version_number v
        → version_of (header_text v ++ body) ≡ v }
{}

/// A line has a form exactly where it is the text of that form, and the version has the form.
pub fn line_forms()
    ensures sound { (v : Version) (body : List ℕ) (f : Line) → form_of v body ≡ Some f
        → (body ≡ line_text f) × IsLegalLine v f }
    ensures complete { (v : Version) (f : Line) → IsLegalLine v f
        → form_of v (line_text f) ≡ Some f }
{}

/// A list of legal sessions has no fault in each version that holds it; no other list has its
/// text, and no list has one text in two versions.
pub fn one_list()
    ensures version { (v : Version) (ss : List ClientSession) → version_of (log_text v ss) ≡ v }
    ensures accepted { (v : Version) (ss : List ClientSession) → AllByRecursion IsLegal ss
        → AllByRecursion (IsHeldBy v) ss → grammar_fault (log_text v ss) ≡ None }
    ensures unique { (v w : Version) (a b : List ClientSession) → AllByRecursion IsLegal a
        → AllByRecursion IsLegal b → log_text v a ≡ log_text w b → (v ≡ w) × (a ≡ b) }
{}

/// The least version of a list of sessions holds it, and no lesser version does.
pub fn least_of_the_versions()
    ensures held { (ss : List ClientSession) → AllByRecursion (IsHeldBy (least_version ss)) ss }
    ensures least { (v : Version) (ss : List ClientSession) → AllByRecursion (IsHeldBy v) ss
        → version_number (least_version ss) ≤ version_number v }
{}

/// A log is read block by block: each block has the log's version, the first fault of its blocks is
/// its own, and their sessions are its list.
pub fn block_by_block()
    ensures version { (text : List ℕ) (b : Block) → Contains (blocks_of text) b
        → b.version ≡ version_of text }
    ensures fault { (text : List ℕ)
        → grammar_fault text ≡ first_of (map (block_fault text) (blocks_of text)) }
    ensures joined { (text : List ℕ) (ss : List ClientSession)
        → map (block_text text) (blocks_of text) ≡ map session_text ss
        → text ≡ log_text (version_of text) ss }
{}
