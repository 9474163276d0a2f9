//! The contents of a module as text, a line for each part.

use anyhow::Result;
use std::alloc::Global;
use wh_syntax::{
    Body, Data, Element, Export, Expr, FuncType, Import, ImportDesc, Instr, Limits, Module,
};

fn show_expr(alloc: Global, expr: &Expr) -> Result<String> {
    let flat = expr.flat();
    let mut text = String::new(alloc);
    for instr in flat.instrs.iter() {
        match instr {
            Instr::BrTable { first, count } => {
                text.push_str(" BrTable(")?;
                let labels = flat.labels.iter().skip(*first as usize);
                for label in labels.take(*count as usize + 1) {
                    write!(text, " {label}")?;
                }
                text.push_str(" )")?;
            }
            other => write!(text, " {other:?}")?,
        }
    }
    Ok(text)
}

fn show_type(alloc: Global, func_type: &FuncType) -> Result<String> {
    let mut text = String::new(alloc);
    for t in func_type.params.iter() {
        write!(text, " {t:?}")?;
    }
    text.push_str(" ->")?;
    for t in func_type.results.iter() {
        write!(text, " {t:?}")?;
    }
    Ok(text)
}

fn show_body(alloc: Global, body: &Body) -> Result<String> {
    let mut text = String::new(alloc);
    for t in body.locals.iter() {
        write!(text, " {t:?}")?;
    }
    text.push_str(" :")?;
    text.push_str(&show_expr(alloc, &body.code)?)?;
    Ok(text)
}

fn show_types(rt: &impl Print, alloc: Global, module: &Module) -> Result<()> {
    for func_type in module.types.iter() {
        println!(rt; "  type{}", show_type(alloc, func_type)?)?;
    }
    Ok(())
}

fn show_import(rt: &impl Print, import: &Import) -> Result<()> {
    let from = import.from.as_str();
    let name = import.name.as_str();
    match import.desc {
        ImportDesc::Func(index) => println!(rt; "  import {from} {name} func {index}")?,
        ImportDesc::Global(t) => println!(rt; "  import {from} {name} global {t:?}")?,
    }
    Ok(())
}

fn show_funcs(rt: &impl Print, module: &Module) -> Result<()> {
    for index in module.funcs.iter() {
        println!(rt; "  func {index}")?;
    }
    Ok(())
}

fn show_limits(rt: &impl Print, what: &str, limits: Limits) -> Result<()> {
    println!(rt; "  {what} {} {:?}", limits.min, limits.max)?;
    Ok(())
}

fn show_declared(rt: &impl Print, alloc: Global, module: &Module) -> Result<()> {
    show_types(rt, alloc, module)?;
    for import in module.imports.iter() {
        show_import(rt, import)?;
    }
    show_funcs(rt, module)?;
    for table in module.tables.iter() {
        show_limits(rt, "table", table.limits)?;
    }
    for limits in module.memories.iter() {
        show_limits(rt, "memory", *limits)?;
    }
    Ok(())
}

fn show_global(rt: &impl Print, alloc: Global, global: &wh_syntax::Global) -> Result<()> {
    let init = show_expr(alloc, &global.init)?;
    let global_type = global.global_type;
    println!(rt;
        "  global {:?} {:?} :{init}",
        global_type.value, global_type.mutability
    )?;
    Ok(())
}

fn show_export(rt: &impl Print, export: &Export) -> Result<()> {
    println!(rt;
        "  export {} {:?} {}",
        export.name, export.kind, export.index
    )?;
    Ok(())
}

fn show_element(rt: &impl Print, alloc: Global, element: &Element) -> Result<()> {
    let offset = show_expr(alloc, &element.offset)?;
    println!(rt;
        "  element {} :{offset} : {:?}",
        element.table, element.init
    )?;
    Ok(())
}

fn show_segment(rt: &impl Print, alloc: Global, segment: &Data) -> Result<()> {
    let offset = show_expr(alloc, &segment.offset)?;
    println!(rt;
        "  data {} :{offset} : {}",
        segment.memory,
        hex::encode(alloc, &segment.init)?
    )?;
    Ok(())
}

fn show_bodies(rt: &impl Print, alloc: Global, module: &Module) -> Result<()> {
    for body in module.bodies.iter() {
        println!(rt; "  body{}", show_body(alloc, body)?)?;
    }
    Ok(())
}

fn show_start(rt: &impl Print, start: Option<u32>) -> Result<()> {
    if let Some(start) = start {
        println!(rt; "  start {start}")?;
    }
    Ok(())
}

fn show_defined(rt: &impl Print, alloc: Global, module: &Module) -> Result<()> {
    for global in module.globals.iter() {
        show_global(rt, alloc, global)?;
    }
    for export in module.exports.iter() {
        show_export(rt, export)?;
    }
    show_start(rt, module.start)?;
    for element in module.elements.iter() {
        show_element(rt, alloc, element)?;
    }
    show_bodies(rt, alloc, module)?;
    for segment in module.segments.iter() {
        show_segment(rt, alloc, segment)?;
    }
    Ok(())
}

/// Prints the contents of a module.
pub fn show(rt: &impl Print, alloc: Global, name: &str, module: &Module) -> Result<()> {
    println!(rt; "{name}:")?;
    show_declared(rt, alloc, module)?;
    show_defined(rt, alloc, module)
}
