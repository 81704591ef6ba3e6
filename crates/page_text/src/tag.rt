//! The elements of a page.
ghost use Rattle.std.specs.Prelude.{◌≡◌};
ghost use Rattle.page_text.specs.Markup.{tag_name};

/// An element of HTML or of a drawing. Each has an end tag.
#[derive(Clone, Copy, Debug, PartialEq, Eq)]
pub enum Tag {
    Html,
    Head,
    Title,
    Style,
    Body,
    PageHeading,
    ChapterHeading,
    SectionHeading,
    Paragraph,
    List,
    Item,
    Row,
    Table,
    Caption,
    TableRow,
    HeadCell,
    Cell,
    Drawing,
    Group,
    Line,
    Rectangle,
    Text,
}

impl Tag {
    /// Its name in HTML.
    pub fn name(self) -> &'static [u8]
        ensures { result.now ≡ tag_name self }
    {
        match self {
            Tag::Html => b"html",
            Tag::Head => b"head",
            Tag::Title => b"title",
            Tag::Style => b"style",
            Tag::Body => b"body",
            Tag::PageHeading => b"h1",
            Tag::ChapterHeading => b"h2",
            Tag::SectionHeading => b"h3",
            Tag::Paragraph => b"p",
            Tag::List => b"ul",
            Tag::Item => b"li",
            Tag::Row => b"div",
            Tag::Table => b"table",
            Tag::Caption => b"caption",
            Tag::TableRow => b"tr",
            Tag::HeadCell => b"th",
            Tag::Cell => b"td",
            Tag::Drawing => b"svg",
            Tag::Group => b"g",
            Tag::Line => b"line",
            Tag::Rectangle => b"rect",
            Tag::Text => b"text",
        }
    }
}
