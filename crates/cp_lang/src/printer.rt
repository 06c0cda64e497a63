ghost use Rattle.std.specs.Prelude.{◌≡◌, ◌++◌, ◌∷◌, [], ℕ, suc, codes, decimal, IfOk, OnOk, Ok, string_bytes};
ghost use Rattle.json.specs.Print.{quoted};
ghost use Rattle.cp_path.specs.Spelling.{place_text, label_text, value_text};
ghost use Rattle.cp_model.specs.Literals.{literal_rows};
ghost use Rattle.cp_model.specs.Trees.{tree_at};
ghost use Rattle.cp_model.specs.declared.row.Content.TheVariants.{Node};
ghost use Rattle.cp_model.specs.declared.op.Op.TheVariants.{Ins};
ghost use Rattle.cp_lang.specs.declared.syntax_tree.Stmt.TheVariants as stmt;
ghost use Rattle.cp_lang.specs.Grammar.{statement_reading};
ghost use Rattle.cp_lang.specs.Printed.{IsOrdered, edge_text, edges_text, node_edges_text};
ghost use Rattle.cp_lang.specs.Printer.{IsSpellable, IsShortTree, SpellsOp, literal_text, op_text, form_text, query_text, statement_text};

use crate::syntax_tree::{Load, Stmt};
use cp_model::{Form, LitEdge, LitList, Literal, Op, Query};
use cp_path::{Label, Loc, Text, Value};
use cp_spelling::{label_text, place_text, value_text};
use std::alloc::{AllocError, Global};

// ---- spellings

fn push_place(alloc: Global, out: &mut String, place: &Loc) -> Result<(), AllocError>
    ensures { OnOk result (string_bytes out.new ≡ string_bytes out.old ++ place_text place.now) }
{
    let text = place_text(alloc, place)?;
    out.push_str(text.as_str())
}

fn push_label(alloc: Global, out: &mut String, label: &Label) -> Result<(), AllocError>
    ensures { OnOk result (string_bytes out.new ≡ string_bytes out.old ++ label_text label.now) }
{
    let text = label_text(alloc, label)?;
    out.push_str(text.as_str())
}

fn push_value(alloc: Global, out: &mut String, value: &Value) -> Result<(), AllocError>
    ensures { OnOk result (string_bytes out.new ≡ string_bytes out.old ++ value_text value.now) }
{
    let text = value_text(alloc, value)?;
    out.push_str(text.as_str())
}

fn push_file(alloc: Global, out: &mut String, file: &Text) -> Result<(), AllocError>
    ensures { OnOk result (string_bytes out.new ≡ string_bytes out.old ++ quoted file.now) }
{
    let value = Value::Text(file.clone()?);
    push_value(alloc, out, &value)
}

// ---- literal trees

fn push_label_of_tree(alloc: Global, out: &mut String, label: &Label) -> Result<(), AllocError>
    ensures { OnOk result (string_bytes out.new ≡ string_bytes out.old ++ (label_text label.now ++ codes " : ")) }
{
    push_label(alloc, out, label)?;
    out.push_str(" : ")
}

#[cycle(tree)]
fn push_edge(alloc: Global, out: &mut String, edge: &LitEdge) -> Result<(), AllocError>
    ensures { OnOk result ((n : ℕ) → IsOrdered n (literal_rows edge.now.tree) → string_bytes out.new ≡ string_bytes out.old ++ edge_text n edge.now) }
{
    push_label_of_tree(alloc, out, &edge.label)?;
    push_tree(alloc, out, &edge.tree)
}

#[cycle(tree)]
fn push_edges(alloc: Global, out: &mut String, list: &LitList) -> Result<(), AllocError>
    ensures { OnOk result ((n : ℕ) → IsOrdered (suc n) (([], Node) ∷ list.now) → string_bytes out.new ≡ string_bytes out.old ++ node_edges_text n list.now) }
{
    let mut separator = "";
    for edge in &list.items {
        out.push_str(separator)?;
        push_edge(alloc, out, edge)?;
        separator = ", ";
    }
    Ok(())
}

#[cycle(tree)]
fn push_tree(alloc: Global, out: &mut String, tree: &Literal) -> Result<(), AllocError>
    ensures { OnOk result ((n : ℕ) → IsOrdered n (literal_rows tree.now) → string_bytes out.new ≡ string_bytes out.old ++ tree_at n (literal_rows tree.now)) }
{
    match tree {
        Literal::Leaf(value) => push_value(alloc, out, value),
        Literal::Node(list) => {
            out.push_str("{")?;
            push_edges(alloc, out, list)?;
            out.push_str("}")
        }
    }
}

fn push_literal(alloc: Global, out: &mut String, tree: &Literal) -> Result<(), AllocError>
    requires { IsShortTree tree.now }
    ensures { OnOk result (string_bytes out.new ≡ string_bytes out.old ++ literal_text tree.now) }
{
    push_tree(alloc, out, tree)
}

// ---- statements

fn push_insertion(
    alloc: Global,
    out: &mut String,
    into: &Loc,
    label: &Label,
    tree: &Literal,
) -> Result<(), AllocError>
    requires { IsShortTree tree.now }
    ensures { OnOk result (string_bytes out.new ≡ string_bytes out.old ++ op_text (Ins into.now label.now tree.now)) }
{
    out.push_str("ins {")?;
    push_label_of_tree(alloc, out, label)?;
    push_literal(alloc, out, tree)?;
    out.push_str("} into ")?;
    push_place(alloc, out, into)
}

fn push_op(alloc: Global, out: &mut String, op: &Op) -> Result<(), AllocError>
    requires { SpellsOp op.now }
    ensures { OnOk result (string_bytes out.new ≡ string_bytes out.old ++ op_text op.now) }
{
    match op {
        Op::Ins { into, label, tree } => push_insertion(alloc, out, into, label, tree),
        Op::Del { label, from } => {
            out.push_str("del ")?;
            push_label(alloc, out, label)?;
            out.push_str(" from ")?;
            push_place(alloc, out, from)
        }
        Op::Copy { from, into } => {
            out.push_str("copy ")?;
            push_place(alloc, out, from)?;
            out.push_str(" into ")?;
            push_place(alloc, out, into)
        }
    }
}

/// Puts this word, and the file.
fn push_source(alloc: Global, out: &mut String, word: &str, file: &Text) -> Result<(), AllocError>
    ensures { OnOk result (string_bytes out.new ≡ string_bytes out.old ++ (word.now ++ quoted file.now)) }
{
    out.push_str(word)?;
    push_file(alloc, out, file)
}

/// Puts a CSV file, and its key column.
fn push_keyed(alloc: Global, out: &mut String, key: &Label, file: &Text) -> Result<(), AllocError>
    ensures { OnOk result (string_bytes out.new ≡ string_bytes out.old ++ (codes " csv " ++ (quoted file.now ++ (codes " by " ++ label_text key.now)))) }
{
    push_source(alloc, out, " csv ", file)?;
    out.push_str(" by ")?;
    push_label(alloc, out, key)
}

fn push_form(alloc: Global, out: &mut String, form: &Form, file: &Text) -> Result<(), AllocError>
    ensures { OnOk result (string_bytes out.new ≡ string_bytes out.old ++ form_text form.now file.now) }
{
    match form {
        Form::Json => push_source(alloc, out, " json ", file),
        Form::Csv(None) => push_source(alloc, out, " csv ", file),
        Form::Csv(Some(key)) => push_keyed(alloc, out, key, file),
    }
}

fn push_asked(alloc: Global, out: &mut String, word: &str, place: &Loc) -> Result<(), AllocError>
    ensures { OnOk result (string_bytes out.new ≡ string_bytes out.old ++ (word.now ++ place_text place.now)) }
{
    out.push_str(word)?;
    push_place(alloc, out, place)
}

fn push_query(alloc: Global, out: &mut String, query: &Query) -> Result<(), AllocError>
    ensures { OnOk result (string_bytes out.new ≡ string_bytes out.old ++ query_text query.now) }
{
    match query {
        Query::Src(place) => push_asked(alloc, out, "src ", place),
        Query::Hist(place) => push_asked(alloc, out, "hist ", place),
        Query::Mod(place) => push_asked(alloc, out, "mod ", place),
        Query::Trace(place) => push_asked(alloc, out, "trace ", place),
        Query::From(place) => push_asked(alloc, out, "from ", place),
        Query::Records(None) => out.push_str("records"),
        Query::Records(Some(tid)) => {
            out.push_str("records ")?;
            let digits = tid.to_string(alloc)?;
            out.push_str(digits.as_str())
        }
        Query::Stats => out.push_str("stats"),
    }
}

#[tactic(auto, unfolding(crate::specs::Printer::statement_text))]
fn push_load(alloc: Global, out: &mut String, load: &Load) -> Result<(), AllocError>
    ensures { OnOk result (string_bytes out.new ≡ string_bytes out.old ++ statement_text (stmt.Load load.now)) }
{
    out.push_str("load ")?;
    out.push_str(load.name.as_str())?;
    push_form(alloc, out, &load.form, &load.file)
}

#[tactic(auto, unfolding(crate::specs::Printer::statement_text))]
fn push_statement(alloc: Global, out: &mut String, statement: &Stmt) -> Result<(), AllocError>
    requires { IsSpellable statement.now }
    ensures { OnOk result (string_bytes out.new ≡ string_bytes out.old ++ statement_text statement.now) }
{
    match statement {
        Stmt::Op(op) => push_op(alloc, out, op),
        Stmt::Commit => out.push_str("commit"),
        Stmt::Abort => out.push_str("abort"),
        Stmt::Load(load) => push_load(alloc, out, load),
        Stmt::Ask(query) => push_query(alloc, out, query),
        Stmt::Show(place) => push_asked(alloc, out, "show ", place),
    }
}

/// The statement as a text, which reads as the statement: one space between tokens, none behind `{` and none before `}`
/// and `,`. Costs the text's bytes.
#[tactic(auto, using(crate::proofs::PrinterLaws::printed_reads))]
pub fn print(alloc: Global, statement: &Stmt) -> Result<String, AllocError>
    requires { IsSpellable statement.now }
    ensures text { IfOk result (λ s. string_bytes s ≡ statement_text statement.now) }
    ensures reads_back { IfOk result (λ s. statement_reading (string_bytes s) ≡ Ok statement.now) }
{
    let mut text = String::new(alloc);
    push_statement(alloc, &mut text, statement)?;
    Ok(text)
}
