//! The texts of a page that stay the same.

/// How a page begins: the style of its rows and sectors, in the colours of the page of `web/`, and for a dark screen.
pub const HEAD: &str = "<!doctype html>
<html lang=\"en\">
<meta charset=\"utf-8\">
<meta name=\"viewport\" content=\"width=device-width,initial-scale=1\">
<title>mcsim: a swap under power cuts</title>
<style>
:root{color-scheme:light dark;--paper:#fff;--ink:#17212b;--soft:#566372;--blank:#f1f3f5;--a:#2f6fb5;--at:#fff;--b:#bd7d08;--bt:#2b1c00;--t:#5f6b77;--o:#c9ccd1;--ot:#17212b;--y:#0b7a5e;--w:#8a3f70;--z:#b3261e;--c:#fff3c4}
@media(prefers-color-scheme:dark){:root{--paper:#1a222b;--ink:#e8edf2;--soft:#a3b0bd;--blank:#222c37;--a:#3577bf;--b:#d8931a;--bt:#1d1300;--t:#697581;--o:#4a525c;--ot:#e8edf2;--y:#2aa583;--w:#d79ac3;--z:#ff8a80;--c:#4a3f12}}
body{margin:1.2em;background:var(--paper);color:var(--ink);font:14px/1.4 system-ui,sans-serif}
h1{font-size:1.3em}h2{font-size:1.05em;margin:1.4em 0 .4em}
pre{margin:.5em 0;padding:.5em .8em;border-left:5px solid;overflow:auto}
pre.t{margin:.1em 0 .4em 7ch;padding:.1em 1ch;border-left:3px dashed var(--w);font:11px/1.5 ui-monospace,monospace}pre.t:before{content:\"power fails within it:\\a\";color:var(--w);font-weight:700}
.y{color:var(--y)}.w{color:var(--w);font-weight:700}.z,.u{color:var(--z);font-weight:700}
pre.y:before{content:\"\\2713  right\\a\"}pre.w:before{content:\"\\2260  not as expected\\a\"}pre.z:before{content:\"\\2717  no boot\\a\"}pre.u:before{content:\"\\2717  not all right\\a\"}
.r .y:before{content:\"\\2713\\a0\"}.r .w:before{content:\"\\2260\\a0\"}.r .z:before{content:\"\\2717\\a0\"}
.r{display:flex;align-items:center;font:11px/1.5 ui-monospace,monospace}
.e{border-top:1px solid var(--soft);margin-top:2px;padding-top:2px}
.r b{flex:none;width:7ch;color:var(--soft);font-weight:400;text-align:right;padding-right:1ch}
.r i,.l i{font-style:normal;min-width:0;height:1.5em;overflow:hidden;white-space:nowrap;text-align:center;color:var(--at);background:var(--o);box-shadow:inset 0 0 0 .5px var(--paper)}
.l i{display:inline-block;vertical-align:middle;padding:0 .6em}
i.n{background:var(--blank);color:var(--soft)}i.a{background:var(--a)}i.b{background:var(--b);color:var(--bt)}i.t{background:var(--t)}i.o{color:var(--ot)}
.s{color:var(--soft);padding-right:106ch}.s i{background:none;color:var(--soft);box-shadow:none}
i.h{background-image:repeating-linear-gradient(45deg,#0005 0 4px,#0000 4px 9px)}
i.x{box-shadow:inset 0 0 0 2px var(--ink)}
.r u{flex:none;width:1.5ch}
.r span,.r em{flex:none;width:50ch;box-sizing:border-box;padding-left:1.5ch;font-style:normal;overflow:hidden;text-overflow:ellipsis;white-space:nowrap}
.r em{width:56ch}
.c{background:var(--c);box-shadow:0 -2px 0 var(--z)}.c span:before{content:\"power fails before \";color:var(--z);font-weight:700}
@media(max-width:70em){.s{padding-right:0}.r{flex-wrap:wrap;margin-bottom:.5em}.r span,.r em{flex:1 0 100%;padding-left:7ch;white-space:normal}}
@media print{body{margin:0;font-size:11px}.r{font-size:7px;break-inside:avoid}pre{white-space:pre-wrap}*{-webkit-print-color-adjust:exact;print-color-adjust:exact}}
</style>
<h1>A swap under power cuts</h1>
";

/// What stands between the verdict and what the page is of.
pub const NOTE: &str = "</pre>
<p>These numbers are of all schedules of at most 16 power cuts from the same start: how many are right, how many there are, and how many end how. What is shown below is of this board, these images and this schedule:</p>
<pre>";

/// What the rows and sectors mean.
pub const LEGEND: &str = "</pre>
<p>A row is an operation of a boot: its number, the sectors of both slots before it, the operation, and what the boot comes to after a cut there: &#10003; right, &#8800; another image runs or stays than is expected, &#10007; no image runs.</p>
<p class=\"l\"><i class=\"a\">a0</i> what sector 0 of the primary held at the start, <i class=\"b\">b0</i> of the secondary; <i class=\"a h\">a0~</i> a copy of it that is not done; <i class=\"n\">-</i> blank; <i class=\"t\">t</i> trailer; <i class=\"o\">*</i> anything else; <i class=\"n x\">-</i> the sector that the operation changes; <i class=\"a\">a2..a9</i> sectors 2 to 9; <i class=\"n\">-x3</i> three alike.</p>
<p>Where torn operations are shown, indented lines below an operation say what the next boot may read if power fails within it, and how that boot ends: those cases that end otherwise than after a cut there. Busy: the flash still says that a swap is under way.</p>
";
