//! The table `types`. A row `type` has a type, its underlying type, and whether it is comparable; a
//! row `pair` has two types, whether they are identical, and whether a value of the first is
//! assignable to the second. Types are written as in Go; `D0` to `D11` are declared types.
use case_tables::table::Table;
use go_base::{Bytes, Memory};
use go_ints::Kind;
use go_types::{Field, Fields, Shape, TypeId, TypeIds, Types};
use std::alloc::Global;

/// The declared types with their right sides, longer names first.
const DECLARED: [(&str, &str); 12] = [
    ("D11", "struct{next []D11}"),
    ("D10", "D4"),
    ("D9", "string"),
    ("D8", "bool"),
    ("D7", "struct{f func()}"),
    ("D6", "[3]int"),
    ("D5", "func(int) bool"),
    ("D4", "[]int"),
    ("D3", "struct{a int; b string}"),
    ("D2", "[]D2"),
    ("D1", "int"),
    ("D0", "int"),
];

/// The most parts of a struct or a function.
const MOST_PARTS: u32 = 8;

/// The deepest that a type is read.
const DEEPEST: u32 = 16;

pub struct TypeRelations;

impl Table for TypeRelations {
    fn name(&self) -> &'static str {
        "types"
    }

    fn difference(&self, alloc: Global, fields: &[&str]) -> Result<Option<String>, Memory> {
        let got = match fields {
            ["type", ty, underlying, comparable] => {
                type_row(alloc, ty, underlying).map(|got| got
                    == Some((true, *comparable == "true")))
            }
            ["pair", from, to, identical, assignable] => pair_row(alloc, from, to).map(|got| got
                == Some((*identical == "true", *assignable == "true"))),
            _ => Ok(false),
        };
        if got? {
            Ok(None)
        } else {
            Ok(Some(String::from_str(alloc, "otherwise")?))
        }
    }
}

/// Whether the one type is the underlying type of the other, and whether that is comparable.
fn type_row(alloc: Global, ty: &str, underlying: &str) -> Result<Option<(bool, bool)>, Memory> {
    let mut reader = Reader::new(alloc)?;
    let ty = reader.read(ty)?;
    let underlying = reader.read(underlying)?;
    match (ty, underlying) {
        (Some(ty), Some(underlying)) => Ok(of_one(&reader.types, ty, underlying)),
        _ => Ok(None),
    }
}

fn of_one(types: &Types, ty: TypeId, underlying: TypeId) -> Option<(bool, bool)> {
    if ty >= types.count() || underlying >= types.count() || !types.is_settled(ty) {
        return None;
    }
    let same = types.identical(types.underlying(ty), underlying);
    Some((same, types.comparable(ty)))
}

/// Whether the types are identical, and whether the one is assignable to the other.
fn pair_row(alloc: Global, from: &str, to: &str) -> Result<Option<(bool, bool)>, Memory> {
    let mut reader = Reader::new(alloc)?;
    let from = reader.read(from)?;
    let to = reader.read(to)?;
    match (from, to) {
        (Some(from), Some(to)) => Ok(of_two(&reader.types, from, to)),
        _ => Ok(None),
    }
}

fn of_two(types: &Types, from: TypeId, to: TypeId) -> Option<(bool, bool)> {
    if from >= types.count() || to >= types.count() {
        return None;
    }
    if !types.is_settled(from) || !types.is_settled(to) {
        return None;
    }
    Some((types.identical(from, to), types.assignable(from, to)))
}

/// Reads types into a table that has the declared ones.
#[derive(Drop)]
struct Reader {
    alloc: Global,
    types: Types,
    declared: Vec<TypeId>,
}

/// A text of which the front is read.
#[derive(Drop)]
struct Text<'a> {
    rest: &'a str,
}

impl Text<'_> {
    /// Reads a word, if it comes next.
    fn eat(&mut self, word: &str) -> bool {
        match self.rest.strip_prefix(word) {
            Some(rest) => {
                self.rest = rest;
                true
            }
            None => false,
        }
    }

    /// Reads up to behind a mark, and answers what stands before it.
    fn before(&mut self, mark: char) -> Option<&str> {
        let (front, rest) = self.rest.split_once(mark)?;
        self.rest = rest;
        Some(front)
    }

    /// Reads a predeclared type.
    fn predeclared(&mut self) -> Option<Shape> {
        let words = [
            ("bool", Shape::Bool),
            ("string", Shape::Text),
            ("int64", Shape::Int(Kind::Int64)),
            ("int32", Shape::Int(Kind::Int32)),
            ("int", Shape::Int(Kind::Int)),
            ("uint8", Shape::Int(Kind::Uint8)),
            ("byte", Shape::Int(Kind::Uint8)),
            ("rune", Shape::Int(Kind::Int32)),
        ];
        words
            .into_iter()
            .find(|word| self.eat(word.0))
            .map(|word| word.1)
    }
}

impl Reader {
    fn new(alloc: Global) -> Result<Reader, Memory> {
        let mut reader = Reader {
            alloc,
            types: Types::new(alloc),
            declared: Vec::new(alloc),
        };
        for _ in DECLARED {
            let named = reader.types.declare()?;
            reader.declared.push(named)?;
        }
        for (i, (_, right)) in DECLARED.iter().enumerate().rev() {
            let right = reader.read(right)?;
            if let (Some(right), Some(named)) = (right, reader.declared.get(i).copied()) {
                reader.define(named, right);
            }
        }
        Ok(reader)
    }

    /// Defines a declared type, where that may be.
    fn define(&mut self, named: TypeId, right: TypeId) {
        if named < self.types.count()
            && right < self.types.count()
            && self.types.can_define(named, right)
        {
            self.types.define(named, right);
        }
    }

    /// The number of the type of a text.
    fn read(&mut self, text: &str) -> Result<Option<TypeId>, Memory> {
        self.ty(&mut Text { rest: text }, DEEPEST)
    }

    /// The number of a shape, if its parts are there.
    fn number(&mut self, shape: Shape) -> Result<Option<TypeId>, Memory> {
        if self.types.can_intern(&shape) {
            Ok(Some(self.types.intern(&shape)?))
        } else {
            Ok(None)
        }
    }

    /// The number of the type at the front of the text, at most so deep.
    #[cycle(reading)]
    fn ty(&mut self, text: &mut Text, depth: u32) -> Result<Option<TypeId>, Memory> {
        if depth == 0 {
            return Ok(None);
        }
        for (i, (name, _)) in DECLARED.iter().enumerate() {
            if text.eat(name) {
                return Ok(self.declared.get(i).copied());
            }
        }
        let shape = match text.predeclared() {
            Some(shape) => Some(shape),
            None => self.literal(text, depth - 1)?,
        };
        match shape {
            Some(shape) => self.number(shape),
            None => Ok(None),
        }
    }

    /// The shape of the type literal at the front of the text.
    #[cycle(reading)]
    fn literal(&mut self, text: &mut Text, depth: u32) -> Result<Option<Shape>, Memory> {
        if depth == 0 {
            return Ok(None);
        }
        if text.eat("[]") {
            let elem = self.ty(text, depth - 1)?;
            return Ok(elem.map(|elem| Shape::Slice { elem }));
        }
        if text.eat("[") {
            let length = text
                .before(']')
                .and_then(|digits| digits.parse::<u32>().ok());
            let elem = self.ty(text, depth - 1)?;
            return Ok(
                length
                    .zip(elem)
                    .map(|(length, elem)| Shape::Array { length, elem }),
            );
        }
        if text.eat("struct{") {
            let fields = self.fields(text, depth - 1)?;
            return Ok(fields.map(|fields| Shape::Struct { fields }));
        }
        if text.eat("func(") {
            let params = self.list(text, depth - 1)?;
            let results = self.results(text, depth - 1)?;
            return Ok(
                params
                    .zip(results)
                    .map(|(params, results)| Shape::Func { params, results }),
            );
        }
        Ok(None)
    }

    /// The fields up to the closing brace.
    #[cycle(reading)]
    fn fields(&mut self, text: &mut Text, depth: u32) -> Result<Option<Fields>, Memory> {
        let mut fields = Vec::new(self.alloc);
        if depth == 0 {
            return Ok(None);
        }
        for _ in 0..MOST_PARTS {
            if text.eat("}") {
                break;
            }
            text.eat("; ");
            let name = Bytes::from_slice(self.alloc, text.before(' ').unwrap_or("").as_bytes())?;
            match self.ty(text, depth - 1)? {
                Some(ty) => fields.push(Field { name, ty })?,
                None => return Ok(None),
            }
        }
        Ok(Some(Fields::of(fields)))
    }

    /// The types up to the closing parenthesis.
    #[cycle(reading)]
    fn list(&mut self, text: &mut Text, depth: u32) -> Result<Option<TypeIds>, Memory> {
        let mut types = Vec::new(self.alloc);
        if depth == 0 {
            return Ok(None);
        }
        for _ in 0..MOST_PARTS {
            if text.eat(")") {
                break;
            }
            text.eat(", ");
            match self.ty(text, depth - 1)? {
                Some(ty) => types.push(ty)?,
                None => return Ok(None),
            }
        }
        Ok(Some(TypeIds::of(types)))
    }

    /// The results of a function: none, one type, or a list.
    #[cycle(reading)]
    fn results(&mut self, text: &mut Text, depth: u32) -> Result<Option<TypeIds>, Memory> {
        if depth == 0 {
            return Ok(None);
        }
        if text.eat(" (") {
            return self.list(text, depth - 1);
        }
        let mut types = Vec::new(self.alloc);
        if text.eat(" ") {
            match self.ty(text, depth - 1)? {
                Some(ty) => types.push(ty)?,
                None => return Ok(None),
            }
        }
        Ok(Some(TypeIds::of(types)))
    }
}
