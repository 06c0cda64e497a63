ghost use Rattle.std.specs.Prelude.{◌≡◌, ◌≤◌, IsTrue, IfOk, IfSome};
ghost use Rattle.std.specs.declared.option.Option.TheVariants.{Some};
ghost use Rattle.cp_model.specs.Tree.{text_bytes, is_node, IsNumber};
ghost use Rattle.cp_model.specs.declared.row.Content.TheVariants.{Leaf};
ghost use Rattle.cp_tree.specs.Shared.{content_of};

use cp_model::Content;
use cp_path::{TEXT_MAX, Value, Whole};
use std::alloc::{AllocError, Global};
use std::marker::Model;
use std::rc::Rc;

/// What stands at a place: a text, and a number of more than 63 bits, are shared, and all else is in place.
#[derive(Drop)]
pub struct SharedContent {
    form: ContentForm,
}

#[derive(Drop)]
enum ContentForm {
    Branch,
    Nil,
    No,
    Yes,
    Number(i64),
    Other(Rc<Content>),
}

impl Model for SharedContent {
    ghost use Rattle.cp_model.specs.declared.row.Content.{Content};
    ghost use Rattle.cp_model.specs.Codes.{content_code};
    ghost use Rattle.cp_path.specs.declared.limits.TheConstants.{TEXT_MAX};
    ghost use Rattle.cp_tree.specs.Shared.{content_of};

    ghost Value = { Content };

    ghost coded = { content_code };

    ghost view = { λ a. content_of a.form };

    ghost use Rattle.cp_model.specs.Tree.{text_bytes};
    ghost use Rattle.std.specs.Prelude.{◌≤◌};

    ghost invariant = { λ a. text_bytes (content_of a.form) ≤ TEXT_MAX };
}

impl SharedContent {
    /// Keeps the content. Costs the bytes of a text.
    pub fn of(alloc: Global, content: &Content) -> Result<SharedContent, AllocError>
        requires { text_bytes content.now ≤ TEXT_MAX }
        ensures { IfOk result (λ c. c ≡ content.now) }
    {
        match simple(content) {
            Some(form) => Ok(SharedContent { form }),
            None => {
                let copy = copy_content(content)?;
                Ok(SharedContent {
                    form: ContentForm::Other(Rc::new(alloc, copy)?),
                })
            }
        }
    }

    /// Shares the content.
    pub fn share(&self) -> Result<SharedContent, AllocError>
        ensures { IfOk result (λ c. c ≡ self.now) }
    {
        let form = match &self.form {
            ContentForm::Branch => ContentForm::Branch,
            ContentForm::Nil => ContentForm::Nil,
            ContentForm::No => ContentForm::No,
            ContentForm::Yes => ContentForm::Yes,
            ContentForm::Number(n) => ContentForm::Number(*n),
            ContentForm::Other(content) => ContentForm::Other(content.clone()?),
        };
        Ok(SharedContent { form })
    }

    /// Copies the content. Costs the bytes of a text.
    pub fn to_content(&self) -> Result<Content, AllocError>
        ensures { IfOk result (λ c. c ≡ self.now) }
    {
        match &self.form {
            ContentForm::Branch => Ok(Content::Node),
            ContentForm::Nil => Ok(Content::Leaf(Value::Null)),
            ContentForm::No => Ok(Content::Leaf(Value::False)),
            ContentForm::Yes => Ok(Content::Leaf(Value::True)),
            ContentForm::Number(n) => Ok(number_content(*n)),
            ContentForm::Other(content) => copy_content(content),
        }
    }

    /// Says whether the two are known to be one content. Costs the bytes of a text.
    pub fn is_known_equal(&self, other: &SharedContent) -> bool
        ensures { IsTrue result → self.now ≡ other.now }
    {
        match (&self.form, &other.form) {
            (ContentForm::Branch, ContentForm::Branch) => true,
            (ContentForm::Nil, ContentForm::Nil) => true,
            (ContentForm::No, ContentForm::No) => true,
            (ContentForm::Yes, ContentForm::Yes) => true,
            (ContentForm::Number(number), ContentForm::Number(other)) => number == other,
            (ContentForm::Other(content), ContentForm::Other(other)) => is_same(content, other),
            _ => false,
        }
    }

    /// Says whether it is that of a node.
    pub fn is_node(&self) -> bool
        ensures { result ≡ is_node (Some self.now) }
    {
        match &self.form {
            ContentForm::Branch => true,
            ContentForm::Other(content) => is_node(content),
            _ => false,
        }
    }

    /// Counts the bytes of its text.
    pub fn text_bytes(&self) -> usize
        ensures bytes { result ≡ text_bytes self.now }
        ensures few { text_bytes self.now ≤ TEXT_MAX }
    {
        match &self.form {
            ContentForm::Other(content) => text_bytes(content),
            _ => 0,
        }
    }
}

/// Says of a content what its type holds: a whole number is within its range.
pub fn number_range(content: &Content)
    ensures { IsNumber content.now }
{
    if let Content::Leaf(Value::Whole(number)) = content {
        let _number = number.get();
    }
}

/// Gives the form of what needs no memory of its own.
fn simple(content: &Content) -> Option<ContentForm>
    ensures { IfSome result (λ f. content_of f ≡ content.now) }
{
    match content {
        Content::Node => Some(ContentForm::Branch),
        Content::Leaf(Value::Null) => Some(ContentForm::Nil),
        Content::Leaf(Value::False) => Some(ContentForm::No),
        Content::Leaf(Value::True) => Some(ContentForm::Yes),
        Content::Leaf(Value::Whole(n)) => match i64::try_from(n.get()) {
            Ok(number) => Some(ContentForm::Number(number)),
            Err(_) => None,
        },
        Content::Leaf(Value::Text(_)) => None,
    }
}

/// Makes the leaf of a number.
fn number_content(number: i64) -> Content
    ensures { result ≡ Leaf (Value.Whole number) }
{
    match Whole::new(i128::from(number)) {
        Some(whole) => Content::Leaf(Value::Whole(whole)),
        None => unreachable!(),
    }
}

/// Copies what stands at a place. Costs the bytes of a text.
fn copy_content(content: &Content) -> Result<Content, AllocError>
    ensures { IfOk result (λ c. c ≡ content.now) }
{
    match content {
        Content::Node => Ok(Content::Node),
        Content::Leaf(value) => Ok(Content::Leaf(value.clone()?)),
    }
}

/// Says whether two contents are the same. Costs the bytes of the shorter text.
fn is_same(content: &Content, other: &Content) -> bool
    ensures { IsTrue result → content.now ≡ other.now }
{
    match (content, other) {
        (Content::Node, Content::Node) => true,
        (Content::Leaf(value), Content::Leaf(other)) => value.is_same(other),
        _ => false,
    }
}

/// Says whether the content is that of a node.
fn is_node(content: &Content) -> bool
    ensures { result ≡ is_node (Some content.now) }
{
    match content {
        Content::Node => true,
        Content::Leaf(_) => false,
    }
}

/// Counts the bytes of a text leaf, and 0 for all else.
fn text_bytes(content: &Content) -> usize
    ensures { result ≡ text_bytes content.now }
{
    match content {
        Content::Leaf(Value::Text(text)) => text.items.len(),
        _ => 0,
    }
}
