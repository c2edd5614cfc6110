//! What the places mean, each law the contract of a function that does nothing.

ghost use Rattle.std.specs.Prelude.{◌≡◌, ℕ, List, Some, map, slice_get};
ghost use Rattle.std.specs.List.{AllByRecursion};
ghost use Rattle.session_log.specs.Text.{ClientSession, Transaction, IsLegal, log_text, op_line};
ghost use Rattle.session_log.specs.Text.{end_line};
ghost use Rattle.session_log.specs.Version.{first_line, version_of};
ghost use Rattle.session_log.specs.declared.line.Line.TheVariants.{Begin};
ghost use Rattle.session_log.specs.declared.session.Op.{Op};
ghost use Rattle.log_lines.specs.Rows.{TxnRow, view_place, rows_of, own_places, line_at};
ghost use Rattle.log_lines.specs.Places.{IsLineOf, StandsAt, AreNodeRows};
ghost use Rattle.log_lines.specs.declared.placed.PlacedHistory.{PlacedHistory};

/// In a log's own table a transaction has its place in its session. Of legal sessions the line at
/// which it begins is its `begin` in their text, those of its operations are these, and the one
/// that ends it is its end.
pub fn lines_are_those_of_the_text()
    ensures place { (n : ℕ) (ss : List ClientSession) (session place : ℕ) (t : Transaction)
        (row : TxnRow) → StandsAt ss (own_places n ss) session place t row → row.place ≡ place }
    ensures begin { (text : List ℕ) (ss : List ClientSession) → AllByRecursion IsLegal ss
        → text ≡ log_text (version_of text) ss
        → (session place : ℕ) (t : Transaction) (row : TxnRow)
        → StandsAt ss (own_places (first_line (version_of text)) ss) session place t row
        → IsLineOf text row.begin (Begin t.begun) }
    ensures operation { (text : List ℕ) (ss : List ClientSession) → AllByRecursion IsLegal ss
        → text ≡ log_text (version_of text) ss
        → (session place : ℕ) (t : Transaction) (row : TxnRow)
        → StandsAt ss (own_places (first_line (version_of text)) ss) session place t row
        → (i : ℕ) (op : Op) → slice_get t.ops i ≡ Some op
        → IsLineOf text (line_at row i) (op_line op) }
    ensures end { (text : List ℕ) (ss : List ClientSession) → AllByRecursion IsLegal ss
        → text ≡ log_text (version_of text) ss
        → (session place : ℕ) (t : Transaction) (row : TxnRow)
        → StandsAt ss (own_places (first_line (version_of text)) ss) session place t row
        → IsLineOf text row.end (end_line t.outcome t.ended) }
{}

/// Each node of a placed history has the row of its transaction.
pub fn nodes_have_their_rows()
    ensures { (log : PlacedHistory) → AreNodeRows log.history.now (rows_of log.places.now)
        (map (λ p. view_place p.now) log.nodes.items) }
{}
