ghost use Rattle.std.specs.Prelude.{◌≡◌, ◌≤◌, ◌<◌, ◌+◌, ℕ, List, [], length, IfOk, OnOk, MatchResult, IfSome, IfNone, if◌then◌else◌};
ghost use Rattle.cp_path.specs.Answers.{Answers};
ghost use Rattle.cp_lang.specs.Lexer as lexer;
ghost use Rattle.cp_lang.specs.Lexer.{tokens_of};
ghost use Rattle.cp_lang.specs.Grammar.{Spot, Move, takes, refused_or, reads, end_of, at_open, at_close, at_colon, at_word, at_label, at_place, at_name, at_file, has_edge, rows_of_edges, node, tree, first_edge, edge_end, after_tree, statement_reading, bytes_reading, csv_load, start, ended, ins_open, ins_close, del_label, copy_origin, load_name, json_file, csv_file, csv_by, show_place, records_tid};
ghost use Rattle.cp_lang.specs.Parser.{reading, GivesToken, Passes, Steps, ReadsPart, ReadsEnd, Stops, IsEdgeLabel, ReadsTree, ReadsEdges, ReadsMore, within, after_verb};
ghost use Rattle.cp_lang.specs.Printer.{IsSpellable};
ghost use Rattle.cp_lang.specs.Tokenized.{shape_of};
ghost use Rattle.cp_lang.specs.Written.{IsWrittenStmt};
ghost use Rattle.cp_lang.specs.declared.syntax_tree.Stmt.{Stmt};

use crate::lexer::{Lexer, Token, spaces};
use crate::syntax_tree::{Load, Stmt, StmtFault};
use crate::token_reading::{
    file_of, has_next, is_close, is_colon, is_empty_end, is_open, is_word, label_of, name_of,
    number_of, opens_node, place_of, value_of,
};
use crate::verb::{Verb, verb_of};
use cp_model::{Form, LitEdge, LitList, Literal, Op, Query};
use cp_path::{LABELS_MAX, Label, Loc, Name, Text};
use std::alloc::{AllocError, Global};
use std::collections::BTreeMap;

/// The tokens of a text that are still to be read, and the text's length.
#[derive(Drop)]
struct Parser<'a> {
    alloc: Global,
    lexer: Lexer<'a>,
    end: usize,
}

impl<'a> Parser<'a> {
    /// Stands at the beginning of a text.
    fn new(alloc: Global, text: &'a str) -> Parser<'a>
        ensures { (s : Spot) → reading result s ≡ reads (length text.now) s (tokens_of text.now) }
    {
        Parser {
            alloc,
            lexer: Lexer::new(text),
            end: text.len(),
        }
    }

    /// The next token, if there is one.
    fn next(&mut self) -> Option<Token<'a>>
        ensures more { IfSome result (λ t. (s : Spot) → reading self.old s ≡ refused_or (takes s (shape_of t.shape)) t.at (reading self.new)) }
        ensures none { IfNone result ((s : Spot) → reading self.old s ≡ end_of self.old.end s) }
        ensures last { IfNone result ((x : Stmt) → reading self.new (ended x) ≡ Ok x) }
        ensures fewer { IfSome result (λ _. length self.new.lexer < length self.old.lexer) }
        ensures end { self.new.end ≡ self.old.end }
    {
        self.lexer.next()
    }

    /// The next token. A text that ends too early is refused at its end.
    fn token(&mut self) -> Result<Token<'a>, StmtFault>
        ensures reads { GivesToken self.old self.new result }
        ensures fewer { OnOk result (length self.new.lexer < length self.old.lexer) }
    {
        match self.next() {
            Some(token) => Ok(token),
            None => Err(StmtFault::Syntax(self.end)),
        }
    }

    /// The opening brace of an insertion.
    fn open(&mut self) -> Result<(), StmtFault>
        ensures reads { Passes self.old self.new at_open result }
    {
        let token = self.token()?;
        if is_open(token) {
            Ok(())
        } else {
            Err(StmtFault::Syntax(token.at))
        }
    }

    /// The closing brace of an insertion.
    fn close(&mut self) -> Result<(), StmtFault>
        ensures reads { Passes self.old self.new at_close result }
    {
        let token = self.token()?;
        if is_close(token) {
            Ok(())
        } else {
            Err(StmtFault::Syntax(token.at))
        }
    }

    /// The colon behind a label.
    fn colon(&mut self) -> Result<(), StmtFault>
        ensures reads { Passes self.old self.new at_colon result }
        ensures fewer { OnOk result (length self.new.lexer < length self.old.lexer) }
    {
        let token = self.token()?;
        if is_colon(token) {
            Ok(())
        } else {
            Err(StmtFault::Syntax(token.at))
        }
    }

    /// This key word.
    fn word(&mut self, text: &str) -> Result<(), StmtFault>
        ensures reads { Passes self.old self.new (at_word text.now) result }
    {
        let token = self.token()?;
        if is_word(token, text) {
            Ok(())
        } else {
            Err(StmtFault::Syntax(token.at))
        }
    }

    /// A label.
    fn label(&mut self) -> Result<Label, StmtFault>
        ensures reads { Steps self.old self.new at_label result }
    {
        let token = self.token()?;
        label_of(self.alloc, token)
    }

    /// A place.
    fn place(&mut self) -> Result<Loc, StmtFault>
        ensures reads { Steps self.old self.new at_place result }
    {
        let token = self.token()?;
        place_of(self.alloc, token)
    }

    /// The name of a source that is to be loaded.
    fn name(&mut self) -> Result<Name, StmtFault>
        ensures reads { Steps self.old self.new at_name result }
    {
        let token = self.token()?;
        name_of(self.alloc, token)
    }

    /// The name of a file.
    fn file(&mut self) -> Result<Text, StmtFault>
        ensures reads { Steps self.old self.new at_file result }
    {
        let token = self.token()?;
        file_of(self.alloc, token)
    }

    /// The end of the text, behind a whole statement.
    fn finish(&mut self) -> Result<(), StmtFault>
        ensures reads { ReadsEnd self.old result }
    {
        match self.next() {
            None => Ok(()),
            Some(token) => Err(StmtFault::Syntax(token.at)),
        }
    }

    /// The tree of a label that is the `depth`th on its way. Costs its bytes, and at a node the sorting of its edges.
    #[cycle(tree)]
    fn tree(&mut self, depth: usize) -> Result<Literal, StmtFault>
        requires { depth ≤ LABELS_MAX }
        ensures reads { ReadsTree self.old self.new depth tree result }
        ensures fewer { OnOk result (length self.new.lexer ≤ length self.old.lexer) }
    {
        let token = self.token()?;
        if opens_node(token) {
            return self.node(depth);
        }
        Ok(Literal::Leaf(value_of(self.alloc, token)?))
    }

    /// The node whose opening brace was read.
    #[cycle(tree)]
    fn node(&mut self, depth: usize) -> Result<Literal, StmtFault>
        requires { depth ≤ LABELS_MAX }
        ensures reads { ReadsTree self.old self.new depth (λ a ls. first_edge (within a [] ls)) result }
        ensures fewer { OnOk result (length self.new.lexer ≤ length self.old.lexer) }
    {
        let token = self.token()?;
        if is_empty_end(token) {
            return Ok(Literal::Node(LitList {
                items: Vec::new(self.alloc),
            }));
        }
        let mut edges = BTreeMap::new(self.alloc);
        self.edges(token, depth, &mut edges)?;
        Ok(Literal::Node(list_of(self.alloc, edges)?))
    }

    /// Adds the edges up to the closing brace, the first of which begins with this token.
    #[cycle(tree)]
    fn edges(
        &mut self,
        first: Token<'a>,
        depth: usize,
        edges: &mut BTreeMap<Label, Literal>,
    ) -> Result<(), StmtFault>
        requires { depth ≤ LABELS_MAX }
        ensures reads { ReadsEdges self.old self.new first.entry depth edges.old.entries (λ a ls. after_tree a (node edges.new.entries) ls) result }
        ensures fewer { OnOk result (length self.new.lexer ≤ length self.old.lexer) }
    {
        self.edge(first, depth, edges)?;
        while self.has_more()? {
            let token = self.token()?;
            self.edge(token, depth, edges)?;
        }
        Ok(())
    }

    /// Adds the edge that begins with this token.
    #[cycle(tree)]
    fn edge(
        &mut self,
        token: Token<'a>,
        depth: usize,
        edges: &mut BTreeMap<Label, Literal>,
    ) -> Result<(), StmtFault>
        requires { depth ≤ LABELS_MAX }
        ensures reads { ReadsEdges self.old self.new token.entry depth edges.old.entries (λ a ls. edge_end (within a edges.new.entries ls)) result }
        ensures fewer { OnOk result (length self.new.lexer ≤ length self.old.lexer) }
    {
        let label = edge_label(self.alloc, token, depth, edges)?;
        self.colon()?;
        let tree = self.tree(depth + 1)?;
        edges.insert(label, tree)?;
        Ok(())
    }

    /// Whether a comma stands behind an edge, or the closing brace.
    fn has_more(&mut self) -> Result<bool, StmtFault>
        ensures reads { ReadsMore self.old self.new result }
        ensures fewer { OnOk result (length self.new.lexer < length self.old.lexer) }
    {
        let token = self.token()?;
        match has_next(token) {
            Some(more) => Ok(more),
            None => Err(StmtFault::Syntax(token.at)),
        }
    }

    /// `ins { LABEL : TREE } into PLACE`, behind its first word.
    fn insertion(&mut self) -> Result<Stmt, StmtFault>
        ensures reads { ReadsPart self.old self.new ins_open ended result }
    {
        self.open()?;
        let label = self.label()?;
        self.colon()?;
        let tree = self.tree(1)?;
        self.insertion_end(label, tree)
    }

    /// `} into PLACE`, behind the tree of an insertion.
    fn insertion_end(&mut self, label: Label, tree: Literal) -> Result<Stmt, StmtFault>
        ensures reads { ReadsPart self.old self.new (ins_close label tree) ended result }
    {
        self.close()?;
        self.word("into")?;
        let into = self.place()?;
        Ok(Stmt::Op(Op::Ins { into, label, tree }))
    }

    /// `del LABEL from PLACE`, behind its first word.
    fn deletion(&mut self) -> Result<Stmt, StmtFault>
        ensures reads { ReadsPart self.old self.new del_label ended result }
    {
        let label = self.label()?;
        self.word("from")?;
        let from = self.place()?;
        Ok(Stmt::Op(Op::Del { label, from }))
    }

    /// `copy PLACE into PLACE`, behind its first word.
    fn copying(&mut self) -> Result<Stmt, StmtFault>
        ensures reads { ReadsPart self.old self.new copy_origin ended result }
    {
        let from = self.place()?;
        self.word("into")?;
        let into = self.place()?;
        Ok(Stmt::Op(Op::Copy { from, into }))
    }

    /// `load NAME json FILE` or `load NAME csv FILE`, perhaps with `by LABEL`, behind its first word.
    fn loading(&mut self) -> Result<Stmt, StmtFault>
        ensures reads { ReadsPart self.old self.new load_name ended result }
    {
        let name = self.name()?;
        let token = self.token()?;
        if is_word(token, "json") {
            return self.json(name);
        }
        if is_word(token, "csv") {
            return self.csv(name);
        }
        Err(StmtFault::Syntax(token.at))
    }

    /// The file behind `json`.
    fn json(&mut self, name: Name) -> Result<Stmt, StmtFault>
        ensures reads { ReadsPart self.old self.new (json_file name) ended result }
    {
        let file = self.file()?;
        Ok(Stmt::Load(Load {
            name,
            form: Form::Json,
            file,
        }))
    }

    /// The key column behind `by`, or the end of the text.
    fn key_column(&mut self) -> Result<Option<Label>, StmtFault>
        ensures reads { MatchResult result
            (λ key. (n f : List ℕ) → reading self.old (csv_by n f) ≡ reading self.new (ended (csv_load n f key)))
            (λ e. (n f : List ℕ) → Stops self.old (csv_by n f) e) }
    {
        let Some(token) = self.next() else {
            return Ok(None);
        };
        if !is_word(token, "by") {
            return Err(StmtFault::Syntax(token.at));
        }
        Ok(Some(self.label()?))
    }

    /// The file behind `csv`, and perhaps the key column.
    fn csv(&mut self, name: Name) -> Result<Stmt, StmtFault>
        ensures reads { ReadsPart self.old self.new (csv_file name) ended result }
    {
        let file = self.file()?;
        let key = self.key_column()?;
        Ok(csv_load(name, file, key))
    }

    /// `show` or `show PLACE`, behind its first word.
    fn showing(&mut self) -> Result<Stmt, StmtFault>
        ensures reads { ReadsPart self.old self.new show_place ended result }
    {
        match self.next() {
            None => Ok(Stmt::Show(Loc::target(self.alloc)?)),
            Some(token) => Ok(Stmt::Show(place_of(self.alloc, token)?)),
        }
    }

    /// `records` or `records NUMBER`, behind its first word.
    fn records(&mut self) -> Result<Stmt, StmtFault>
        ensures reads { ReadsPart self.old self.new records_tid ended result }
    {
        match self.next() {
            None => Ok(Stmt::Ask(Query::Records(None))),
            Some(token) => Ok(Stmt::Ask(Query::Records(Some(number_of(token)?)))),
        }
    }

    /// What stands behind a statement's first word.
    fn after_verb(&mut self, verb: Verb) -> Result<Stmt, StmtFault>
        ensures reads { ReadsPart self.old self.new (after_verb verb) ended result }
    {
        match verb {
            Verb::Ins => self.insertion(),
            Verb::Del => self.deletion(),
            Verb::Copy => self.copying(),
            Verb::Commit => Ok(Stmt::Commit),
            Verb::Abort => Ok(Stmt::Abort),
            Verb::Load => self.loading(),
            Verb::Src => Ok(Stmt::Ask(Query::Src(self.place()?))),
            Verb::Hist => Ok(Stmt::Ask(Query::Hist(self.place()?))),
            Verb::Mod => Ok(Stmt::Ask(Query::Mod(self.place()?))),
            Verb::Trace => Ok(Stmt::Ask(Query::Trace(self.place()?))),
            Verb::From => Ok(Stmt::Ask(Query::From(self.place()?))),
            Verb::Show => self.showing(),
            Verb::Records => self.records(),
            Verb::Stats => Ok(Stmt::Ask(Query::Stats)),
        }
    }

    /// A whole statement.
    fn statement(&mut self) -> Result<Stmt, StmtFault>
        ensures reads { ReadsPart self.old self.new start ended result }
    {
        let token = self.token()?;
        match verb_of(token) {
            Some(verb) => self.after_verb(verb),
            None => Err(StmtFault::Syntax(token.at)),
        }
    }
}

// ---- the edges of a node

/// The edges in the order of their labels.
fn list_of(alloc: Global, edges: BTreeMap<Label, Literal>) -> Result<LitList, AllocError>
    ensures { IfOk result (λ l. l ≡ rows_of_edges edges.entries) }
{
    let mut items = Vec::new(alloc);
    for (label, tree) in edges {
        items.push(LitEdge { label, tree })?;
    }
    Ok(LitList { items })
}

/// Whether an edge of this label is there. Costs the logarithm of their number.
fn has_edge(edges: &BTreeMap<Label, Literal>, label: &Label) -> bool
    ensures { result ≡ has_edge label.now edges.now.entries }
{
    edges.contains_key(label)
}

/// The label of one edge more below the `depth`th label on a way. A sibling's label can't stand again,
/// and neither can a label behind [`LABELS_MAX`] others.
fn edge_label<'a>(
    alloc: Global,
    token: Token<'a>,
    depth: usize,
    edges: &BTreeMap<Label, Literal>,
) -> Result<Label, StmtFault>
    ensures reads { IsEdgeLabel token.entry depth edges.now.entries result }
    ensures room { OnOk result (depth < LABELS_MAX) }
{
    let label = label_of(alloc, token)?;
    let is_full = depth >= LABELS_MAX;
    let is_there = has_edge(edges, &label);
    if is_full || is_there {
        return Err(StmtFault::Syntax(token.at));
    }
    Ok(label)
}

// ---- whole statements

/// The loading of a CSV file, perhaps by a key column.
fn csv_load(name: Name, file: Text, key: Option<Label>) -> Stmt
    ensures { result ≡ csv_load name file key }
{
    Stmt::Load(Load {
        name,
        form: Form::Csv(key),
        file,
    })
}

/// The statement that a text is, within every limit, so that it can be printed. Costs the text's bytes, and at the nodes of an inserted tree the sorting of their edges.
pub fn parse(alloc: Global, text: &str) -> Result<Stmt, StmtFault>
    ensures answers { Answers StmtFault.Memory (statement_reading text.now) result }
    ensures spellable { IfOk result (λ s. IsSpellable s) }
    ensures written { IfOk result (λ s. IsWrittenStmt s) }
{
    let mut parser = Parser::new(alloc, text);
    let statement = parser.statement()?;
    match parser.finish() {
        Ok(()) => Ok(statement),
        Err(fault) => {
            drop(statement);
            Err(fault)
        }
    }
}

/// The statement that bytes are; the first that isn't UTF-8 can't stand.
pub fn parse_bytes(alloc: Global, bytes: &[u8]) -> Result<Stmt, StmtFault>
    ensures answers { Answers StmtFault.Memory (bytes_reading bytes.now) result }
    ensures spellable { IfOk result (λ s. IsSpellable s) }
    ensures written { IfOk result (λ s. IsWrittenStmt s) }
{
    match std::str::from_utf8(bytes) {
        Ok(text) => parse(alloc, text),
        Err(fault) => Err(StmtFault::Syntax(fault.valid_up_to())),
    }
}

/// The offset of the first token of a text, and the text's length where there is none. Costs the white space before it.
#[tactic(auto, using(crate::proofs::Steps::spaces_first))]
pub fn first_offset(bytes: &[u8]) -> usize
    ensures { result ≡ lexer.first_offset (length bytes.now) (lexer.tokens_of bytes.now) }
{
    spaces(bytes)
}
