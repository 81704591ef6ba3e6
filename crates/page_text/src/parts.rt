//! Tables and other parts of a page as bytes behind other bytes.
ghost use Rattle.std.specs.Prelude.{◌≡◌, ◌++◌, flat_map, OnOk};
ghost use Rattle.page_text.specs.Pages.{words_in, cell_bytes, row_bytes, heads_bytes, table_inside, table_bytes, heading_tag, part_bytes};

use crate::attribute::Attribute;
use crate::markup::{add_words, close, open};
use crate::shapes::add_drawing;
use crate::tag::Tag;
use crate::{Cell, Heading, Part, Table};
use rep_lists::{Items, NoMemory};

/// Puts elements of a tag with a text each.
fn add_each(out: &mut Vec<u8>, tag: Tag, texts: &[Items<u8>]) -> Result<(), NoMemory>
    ensures { OnOk result (out.new.items ≡ out.old.items ++ flat_map (words_in tag) texts.now) }
{
    for text in texts {
        add_words(out, tag, &[], text.as_slice())?;
    }
    Ok(())
}

/// Puts cells one after the other.
fn add_cells(out: &mut Vec<u8>, cells: &[Cell]) -> Result<(), NoMemory>
    ensures { OnOk result (out.new.items ≡ out.old.items ++ flat_map cell_bytes cells.now) }
{
    for cell in cells {
        add_words(
            out,
            Tag::Cell,
            &[Attribute::Class(cell.look)],
            cell.words.as_slice(),
        )?;
    }
    Ok(())
}

/// Puts a row of cells.
fn add_row(out: &mut Vec<u8>, cells: &[Cell]) -> Result<(), NoMemory>
    ensures { OnOk result (out.new.items ≡ out.old.items ++ row_bytes cells.now) }
{
    open(out, Tag::TableRow, &[])?;
    add_cells(out, cells)?;
    close(out, Tag::TableRow)
}

/// Puts rows one after the other.
fn add_rows(out: &mut Vec<u8>, rows: &[Items<Cell>]) -> Result<(), NoMemory>
    ensures { OnOk result (out.new.items ≡ out.old.items ++ flat_map row_bytes rows.now) }
{
    for row in rows {
        add_row(out, row.as_slice())?;
    }
    Ok(())
}

/// Puts the heads of columns.
fn add_heads(out: &mut Vec<u8>, columns: &[Items<u8>]) -> Result<(), NoMemory>
    ensures { OnOk result (out.new.items ≡ out.old.items ++ heads_bytes columns.now) }
{
    open(out, Tag::TableRow, &[])?;
    add_each(out, Tag::HeadCell, columns)?;
    close(out, Tag::TableRow)
}

/// Puts what a table has in it.
fn add_table_inside(out: &mut Vec<u8>, table: &Table) -> Result<(), NoMemory>
    ensures { OnOk result (out.new.items ≡ out.old.items ++ table_inside table.now) }
{
    add_words(out, Tag::Caption, &[], table.caption.as_slice())?;
    add_heads(out, table.columns.as_slice())?;
    add_rows(out, table.rows.as_slice())
}

/// Puts a table.
fn add_table(out: &mut Vec<u8>, table: &Table) -> Result<(), NoMemory>
    ensures { OnOk result (out.new.items ≡ out.old.items ++ table_bytes table.now) }
{
    open(out, Tag::Table, &[])?;
    add_table_inside(out, table)?;
    close(out, Tag::Table)
}

/// Puts tables one after the other.
fn add_tables(out: &mut Vec<u8>, tables: &[Table]) -> Result<(), NoMemory>
    ensures { OnOk result (out.new.items ≡ out.old.items ++ flat_map table_bytes tables.now) }
{
    for table in tables {
        add_table(out, table)?;
    }
    Ok(())
}

/// The element of a heading.
fn heading_tag(level: Heading) -> Tag
    ensures { result ≡ heading_tag level }
{
    match level {
        Heading::Page => Tag::PageHeading,
        Heading::Chapter => Tag::ChapterHeading,
        Heading::Section => Tag::SectionHeading,
    }
}

/// Puts a part.
fn add_part(out: &mut Vec<u8>, part: &Part) -> Result<(), NoMemory>
    ensures { OnOk result (out.new.items ≡ out.old.items ++ part_bytes part.now) }
{
    match part {
        Part::Heading { level, words } => {
            add_words(out, heading_tag(*level), &[], words.as_slice())
        }
        Part::Paragraph { look, words } => {
            add_words(
                out,
                Tag::Paragraph,
                &[Attribute::Class(*look)],
                words.as_slice(),
            )
        }
        Part::Listing(lines) => {
            open(out, Tag::List, &[])?;
            add_each(out, Tag::Item, lines.as_slice())?;
            close(out, Tag::List)
        }
        Part::Drawing(drawing) => add_drawing(out, drawing),
        Part::Tables(tables) => {
            open(out, Tag::Row, &[])?;
            add_tables(out, tables.as_slice())?;
            close(out, Tag::Row)
        }
    }
}

/// Puts parts one after the other.
pub fn add_parts(out: &mut Vec<u8>, parts: &[Part]) -> Result<(), NoMemory>
    ensures { OnOk result (out.new.items ≡ out.old.items ++ flat_map part_bytes parts.now) }
{
    for part in parts {
        add_part(out, part)?;
    }
    Ok(())
}
