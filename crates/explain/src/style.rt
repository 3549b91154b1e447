// What an HTML page looks like.

// Eight colours, which the fields take in turn.
pub(crate) const COLOURS: &str =
    ":root{color-scheme:light dark;--ink:#1b1b1b;--paper:#fff;--line:#c4c4c4;--bad:#b00020;\
    --f0:#dbe7ff;--f1:#ffe1c4;--f2:#d5f0d5;--f3:#f6d8ee;--f4:#fff0ae;--f5:#d0eff2;--f6:#e5dbf8;--f7:#e3e3e3}\n\
    @media(prefers-color-scheme:dark){:root{--ink:#eee;--paper:#161616;--line:#5a5a5a;--bad:#ff8a80;\
    --f0:#26457f;--f1:#6d3f14;--f2:#225c2b;--f3:#6b2c5e;--f4:#5c4e00;--f5:#105762;--f6:#483275;--f7:#474747}}\n\
    .f0{background:var(--f0)}.f1{background:var(--f1)}.f2{background:var(--f2)}.f3{background:var(--f3)}\
    .f4{background:var(--f4)}.f5{background:var(--f5)}.f6{background:var(--f6)}.f7{background:var(--f7)}\n";

pub(crate) const LAYOUT: &str =
    "body{margin:0 auto;max-width:64rem;padding:1rem;font:1rem/1.5 system-ui,sans-serif;color:var(--ink);background:var(--paper)}\n\
    h1{font-size:1.4rem;line-height:1.25}h2{font-size:1.1rem;margin-bottom:0}\n\
    h1,p,li,td:last-child{overflow-wrap:anywhere}ul{margin-top:.25rem;padding-left:1.25rem}\n\
    .why{border-left:4px solid var(--bad);padding-left:.75rem}\n\
    table{border-collapse:collapse;margin-top:1rem}\n\
    th,td{text-align:left;vertical-align:top;padding:.25rem .75rem .25rem 0;border-bottom:1px solid var(--line)}\n\
    td:nth-child(-n+2){font-variant-numeric:tabular-nums;text-align:right}\n\
    td:nth-child(3){padding-left:2.25rem;text-indent:-2.25rem}\n\
    td b{display:inline-block;width:1.75rem;margin-right:.5rem;text-align:center;text-indent:0;border-radius:4px;font-weight:400}\n\
    @media(max-width:46rem){th,td{padding-right:.4rem}}\n";

// Of the bytes.
pub(crate) const DUMP_LAYOUT: &str = ".dump{font-family:ui-monospace,monospace}\n\
    .dump p{margin:0;white-space:nowrap}\n\
    .dump p>span{display:inline-block;margin-right:1ch}\n\
    .dump em{display:inline-block;width:4ch;margin-right:1ch;text-align:right;font-style:normal;opacity:.75;vertical-align:top}\n\
    .dump i{display:inline-block;box-sizing:border-box;width:3.4ch;min-height:3.5em;margin:0 1px 3px;padding:2px 0;text-align:center;\
    font-style:normal;line-height:1.2;vertical-align:top;border:1px solid transparent;border-radius:4px}\n\
    .dump i span,.dump small{display:block;white-space:pre;line-height:1.2}\n\
    .dump small{font-size:.7em}\n\
    .dump i.refused{border:2px solid var(--bad);padding:1px 0;font-weight:700}\n\
    @media(max-width:46rem){.dump p>span{display:block}}\n\
    @media(max-width:23rem){.dump{font-size:.85rem}}\n";
