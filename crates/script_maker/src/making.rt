ghost use Rattle.std.specs.Prelude.{◌≡◌, ◌∷◌, [], IfOk, OnOk};
ghost use Rattle.script_maker.specs.Growing.{Gains, GainsLines};
ghost use Rattle.script_maker.specs.Laws.{IsCount};
ghost use Rattle.script_maker.specs.Made.{add_line, client_at, commit_lines, last_lines, made, made_head, query_line, query_lines, turn_lines, turns};

use crate::turn::{Turn, turn_behind};
use field_schema::{NoMemory, Text};
use std::alloc::Global;

// Writes a piece.
fn put(out: &mut String, piece: &str) -> Result<(), NoMemory>
    ensures { OnOk result (Gains out.old out.new piece.now) }
{
    out.push_str(piece)?;
    Ok(())
}

// Writes the configuration and the line behind it.
fn put_head(out: &mut String) -> Result<(), NoMemory>
    ensures { OnOk result (Gains out.old out.new made_head) }
{
    put(
        out,
        r#"{"df":"t","filterCache":{"autowarmCount":16},"queryResultCache":{"autowarmCount":16},"#,
    )?;
    put(
        out,
        r#""schema":{"fields":[{"name":"id","type":"string"},{"name":"cat","type":"string"},"#,
    )?;
    put(
        out,
        r#"{"name":"price","type":"plong"},{"name":"t","type":"text_general"}],"uniqueKey":"id"}}"#,
    )?;
    put(out, "\n%%\n")
}

// The client of a turn.
fn client_of(turn: &Turn) -> u32
    ensures { result ≡ client_at turn.now.index }
{
    1 + turn.index / 100 % 12
}

// Writes the line of a turn's document.
fn put_add(out: &mut String, turn: &Turn) -> Result<(), NoMemory>
    ensures { OnOk result (GainsLines out.old out.new (add_line turn.now ∷ [])) }
{
    let client = client_of(turn);
    let Turn {
        index,
        cat,
        price,
        word,
    } = *turn;
    write!(
        out,
        "{client} add {{\"cat\":\"c{cat}\",\"id\":\"d{index}\",\"price\":{price},\"t\":\"w{word} item\"}}\n"
    )?;
    Ok(())
}

// Writes the line of a turn's query.
fn put_query(out: &mut String, turn: &Turn) -> Result<(), NoMemory>
    ensures { OnOk result (GainsLines out.old out.new (query_line turn.now ∷ [])) }
{
    let client = client_of(turn);
    let Turn {
        cat,
        price,
        word,
        ..
    } = *turn;
    write!(
        out,
        "{client} query q=t:w{word}&fq=cat:c{cat}&fq=price:[*+TO+{price}]&sort=price+asc&fl=id,price\n"
    )?;
    Ok(())
}

// Writes it where the turn has a query.
fn put_asked(out: &mut String, turn: &Turn) -> Result<(), NoMemory>
    ensures { OnOk result (GainsLines out.old out.new (query_lines turn.now)) }
{
    if turn.index % 10 == 9 {
        put_query(out, turn)
    } else {
        put(out, "")
    }
}

// Writes the lines of a turn's commit, where the turn has one.
fn put_commit(out: &mut String, turn: &Turn) -> Result<(), NoMemory>
    ensures { OnOk result (GainsLines out.old out.new (commit_lines turn.now)) }
{
    if turn.index % 100 == 99 {
        let client = client_of(turn);
        write!(out, "{client} commit\n---\n")?;
    }
    Ok(())
}

// Writes the lines of a turn.
fn put_turn(out: &mut String, turn: &Turn) -> Result<(), NoMemory>
    ensures { OnOk result (GainsLines out.old out.new (turn_lines turn.now)) }
{
    put_add(out, turn)?;
    put_asked(out, turn)?;
    put_commit(out, turn)
}

// Writes the lines of all turns.
fn put_turns(out: &mut String, n: u32) -> Result<(), NoMemory>
    requires { IsCount n }
    ensures { OnOk result (GainsLines out.old out.new (turns n n)) }
{
    let mut x = u64::from(n);
    for index in 0..n {
        let (turn, behind) = turn_behind(x, index);
        put_turn(out, &turn)?;
        x = behind;
    }
    Ok(())
}

// Writes the last lines.
fn put_last(out: &mut String) -> Result<(), NoMemory>
    ensures { OnOk result (GainsLines out.old out.new last_lines) }
{
    put(out, "---\n1 commit\n1 query q=*:*&rows=0\n")
}

/// The script of so many documents, 1 to 20,000, as a text: the configuration, `%%`, and for each document an add, for
/// each tenth a query, for each hundredth a commit and the end of the phase; at the end a commit and a query for all
/// documents. The number is the seed of the generator, so the text is the same at each call.
///
/// An error is want of memory. It costs the text's length.
pub fn make(alloc: Global, n: u32) -> Result<Text, NoMemory>
    requires { IsCount n }
    ensures { IfOk result (λ t. t ≡ made n) }
{
    let mut out = String::new(alloc);
    put_head(&mut out)?;
    put_turns(&mut out, n)?;
    put_last(&mut out)?;
    Ok(Text::new(out))
}
