//! The operands of texts, as `make_table.py` writes them from those of operands.rt and vector_operands.rt.
use crate::item::{Item, Kind, Rule, VectorFile};
use crate::operands::{
    HW_IMM16, IMMR_IMMS, LONG_SHIFT, N_IMMR_IMMS, SHORT_HW_IMM16, SHORT_SHIFT, W, W_SP, X, X_SP,
    operand, operand_of, short,
};
use crate::vector_operands::{
    by_element_size, by_low_size, by_size, index, low_part, low_predicate, predicate, right,
    signed, tile, up_to, vector, vector_operand, word,
};
use a64_table::fields as scalar_fields;
use insn_forms::Field;
use sve_table::fields as vector_fields;

macro_rules! items {
    ($($($item:ident)+;)*) => {
        [$($(operand!($item)),+),*]
    };
}

// The index of an operand in `OPERANDS`, by its name.
macro_rules! index_of {
    (none) => { 0 };
    (comma) => { 1 };
    (open) => { 2 };
    (close) => { 3 };
    (bang) => { 4 };
    (xd) => { 5 };
    (xd_sp) => { 6 };
    (xt) => { 7 };
    (xt2) => { 8 };
    (xt2_not_t) => { 9 };
    (xn) => { 10 };
    (xn_sp) => { 11 };
    (xn_sp_not_t) => { 12 };
    (xn_sp_alone) => { 13 };
    (xm) => { 14 };
    (xs) => { 15 };
    (xa) => { 16 };
    (wd) => { 17 };
    (wd_sp) => { 18 };
    (wt) => { 19 };
    (wt2) => { 20 };
    (wt2_not_t) => { 21 };
    (wn) => { 22 };
    (wn_sp) => { 23 };
    (wm) => { 24 };
    (ws) => { 25 };
    (wa) => { 26 };
    (sp) => { 27 };
    (wsp) => { 28 };
    (lsl) => { 29 };
    (shift3) => { 30 };
    (shift4) => { 31 };
    (extend) => { 32 };
    (uxtb_to_uxtw) => { 33 };
    (sxtb_to_sxtw) => { 34 };
    (uxtw) => { 35 };
    (uxtx) => { 36 };
    (sxtw) => { 37 };
    (sxtx) => { 38 };
    (condition) => { 39 };
    (opposite) => { 40 };
    (nzcv) => { 41 };
    (tpidr_el0) => { 42 };
    (tpidr2_el0) => { 43 };
    (svcr) => { 44 };
    (imm12) => { 45 };
    (imm12_2) => { 46 };
    (imm12_4) => { 47 };
    (imm12_8) => { 48 };
    (imm16) => { 49 };
    (imm5) => { 50 };
    (udf_imm16) => { 51 };
    (flags) => { 52 };
    (hint) => { 53 };
    (crm) => { 54 };
    (bit) => { 55 };
    (amount4) => { 56 };
    (amount6) => { 57 };
    (amount5) => { 58 };
    (imms6) => { 59 };
    (imms5) => { 60 };
    (immr6) => { 61 };
    (immr5) => { 62 };
    (halfword_shift64) => { 63 };
    (halfword_shift32) => { 64 };
    (amount_is_0) => { 65 };
    (amount_is_1) => { 66 };
    (amount_is_2) => { 67 };
    (amount_is_3) => { 68 };
    (twelve) => { 69 };
    (imm9) => { 70 };
    (imm7_4) => { 71 };
    (imm7_8) => { 72 };
    (words26) => { 73 };
    (words19) => { 74 };
    (words14) => { 75 };
    (bytes21) => { 76 };
    (pages21) => { 77 };
    (xmask) => { 78 };
    (wmask) => { 79 };
    (xmask_or_negative) => { 80 };
    (wmask_or_negative) => { 81 };
    (xshift_left) => { 82 };
    (wshift_left) => { 83 };
    (xhalfword) => { 84 };
    (whalfword) => { 85 };
    (xinverted_halfword) => { 86 };
    (winverted_halfword) => { 87 };
    (brace) => { 88 };
    (brace_end) => { 89 };
    (slash) => { 90 };
    (zd_t) => { 91 };
    (zn_t) => { 92 };
    (zm_t) => { 93 };
    (zd_bh) => { 94 };
    (zn_bh) => { 95 };
    (zd_sd) => { 96 };
    (zn_sd) => { 97 };
    (zn_half) => { 98 };
    (zm_half) => { 99 };
    (zd_z) => { 100 };
    (zn_z) => { 101 };
    (zd_b) => { 102 };
    (zn_b) => { 103 };
    (zm_b) => { 104 };
    (zd_h) => { 105 };
    (zn_h) => { 106 };
    (zm_h) => { 107 };
    (zd_s) => { 108 };
    (zn_s) => { 109 };
    (zd_d) => { 110 };
    (zn_d) => { 111 };
    (zm_d) => { 112 };
    (zd_q) => { 113 };
    (zn_q) => { 114 };
    (zt_e) => { 115 };
    (zt_sd) => { 116 };
    (vd_b) => { 117 };
    (vd_h) => { 118 };
    (vd_s) => { 119 };
    (vd_d) => { 120 };
    (pd_t) => { 121 };
    (pn_t) => { 122 };
    (pd_b) => { 123 };
    (pn_b) => { 124 };
    (pm_b) => { 125 };
    (pt) => { 126 };
    (pg) => { 127 };
    (pg4) => { 128 };
    (cpy_pg) => { 129 };
    (row_pn) => { 130 };
    (column_pm) => { 131 };
    (za_s) => { 132 };
    (za_d) => { 133 };
    (za_hb) => { 134 };
    (za_hh) => { 135 };
    (za_hs) => { 136 };
    (za_hd) => { 137 };
    (za_hq) => { 138 };
    (za_vb) => { 139 };
    (za_vh) => { 140 };
    (za_vs) => { 141 };
    (za_vd) => { 142 };
    (za_vq) => { 143 };
    (source_hb) => { 144 };
    (source_hh) => { 145 };
    (source_hs) => { 146 };
    (source_hd) => { 147 };
    (source_hq) => { 148 };
    (source_vb) => { 149 };
    (source_vh) => { 150 };
    (source_vs) => { 151 };
    (source_vd) => { 152 };
    (source_vq) => { 153 };
    (rv) => { 154 };
    (index_0) => { 155 };
    (index_array) => { 156 };
    (index_b) => { 157 };
    (index_h) => { 158 };
    (index_s) => { 159 };
    (index_d) => { 160 };
    (index_q) => { 161 };
    (source_index_b) => { 162 };
    (source_index_h) => { 163 };
    (source_index_s) => { 164 };
    (source_index_d) => { 165 };
    (source_index_q) => { 166 };
    (xm_sp) => { 167 };
    (xm_given) => { 168 };
    (m) => { 169 };
    (z) => { 170 };
    (mul) => { 171 };
    (vl) => { 172 };
    (sm) => { 173 };
    (za) => { 174 };
    (pattern) => { 175 };
    (multiplier) => { 176 };
    (eight) => { 177 };
    (amount_is_4) => { 178 };
    (imm8) => { 179 };
    (extract8) => { 180 };
    (zero_mask) => { 181 };
    (array_offset) => { 182 };
    (left_b) => { 183 };
    (left_h) => { 184 };
    (left_s) => { 185 };
    (left_d) => { 186 };
    (right_b) => { 187 };
    (right_h) => { 188 };
    (right_s) => { 189 };
    (right_d) => { 190 };
    (signed4) => { 191 };
    (signed5) => { 192 };
    (signed5b) => { 193 };
    (signed6) => { 194 };
    (signed8) => { 195 };
    (signed9) => { 196 };
}

pub(crate) use index_of;

/// The operands of texts, each once.
pub static OPERANDS: [Item; 197] = items! {
    none comma open close bang xd xd_sp xt xt2 xt2_not_t xn xn_sp xn_sp_not_t xn_sp_alone xm xs xa wd
    wd_sp wt wt2 wt2_not_t wn wn_sp wm ws wa sp wsp lsl shift3 shift4 extend uxtb_to_uxtw
    sxtb_to_sxtw uxtw uxtx sxtw sxtx condition opposite nzcv tpidr_el0 tpidr2_el0 svcr imm12 imm12_2
    imm12_4 imm12_8 imm16 imm5 udf_imm16 flags hint crm bit amount4 amount6 amount5 imms6 imms5 immr6
    immr5 halfword_shift64 halfword_shift32 amount_is_0 amount_is_1 amount_is_2 amount_is_3 twelve
    imm9 imm7_4 imm7_8 words26 words19 words14 bytes21 pages21 xmask wmask xmask_or_negative
    wmask_or_negative xshift_left wshift_left xhalfword whalfword xinverted_halfword
    winverted_halfword brace brace_end slash zd_t zn_t zm_t zd_bh zn_bh zd_sd zn_sd zn_half zm_half
    zd_z zn_z zd_b zn_b zm_b zd_h zn_h zm_h zd_s zn_s zd_d zn_d zm_d zd_q zn_q zt_e zt_sd vd_b vd_h
    vd_s vd_d pd_t pn_t pd_b pn_b pm_b pt pg pg4 cpy_pg row_pn column_pm za_s za_d za_hb za_hh za_hs
    za_hd za_hq za_vb za_vh za_vs za_vd za_vq source_hb source_hh source_hs source_hd source_hq
    source_vb source_vh source_vs source_vd source_vq rv index_0 index_array index_b index_h index_s
    index_d index_q source_index_b source_index_h source_index_s source_index_d source_index_q xm_sp
    xm_given m z mul vl sm za pattern multiplier eight amount_is_4 imm8 extract8 zero_mask
    array_offset left_b left_h left_s left_d right_b right_h right_s right_d signed4 signed5 signed5b
    signed6 signed8 signed9;
};
